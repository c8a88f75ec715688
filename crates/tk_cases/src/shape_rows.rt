//! Rows of certificates for small images, each with the first demand that fails, as a model that was written apart gave it.
//!
//! A row is `LABEL: CODE|INPUTS|OUTPUTS|SLOTS|ABORTS|PAUSES|FORKS|BOUND|LINES|LOOPS|SLOTS => ANSWER`, with commas between lines.

/// Certificates that are accepted, but for the last.
pub const WORKED: &str =
    "the counter: e8600000,30630001,f8600004,fc200000,b800fff0|0|1|0||3 0 0||8|T 0 0 0 4 -,T 0 0 0 3 -,T 0 0 0 2 -,T 0 0 0 1 -,T 0 0 0 5 -||5 - => accepted
two children: fc000102,30630001,fc200000,fc400000,fc200000,fc400000,fc400000|||0,4,6||2 0 0,4 1 0|0 0 0|4|T 0 0 0 3 -,T 0 0 0 2 -,T 0 0 0 1 -,T 0 0 0 - 1,T 1 0 0 1 -,T 1 0 0 - 1,T 2 0 0 - 1||3 1,- 1,- - => accepted
a weak abort: fc600000,fc200000,b800fffc,b800fff4,e8600000,fd430000|0||0|w 4 3|1 0 1 0||9|T 0 0 0 2 -,T 0 1 0 0 1 - 4 -,T 0 1 0 0 2 - 5 -,T 0 0 0 3 -,C 2,C 1||7 - => accepted
a loop: fce00003,fd000004,30630001,b800fff8,fc200000,b800ffec|||0||4 0 0||14|T 0 0 0 12 -,T 0 0 1 0 2 -,T 0 0 1 0 4 -,T 0 0 1 0 3 -,T 0 0 0 1 -,T 0 0 0 13 -|0 3|13 - => accepted
a strong abort round a fork: fc600000,fc000101,fc800000,fc400000,fc400000,fd400000|||0,4|s 5 3||1 0 1 0|6|T 0 0 0 - 5,T 0 1 0 0 - 4 - 4,T 0 1 0 0 - 2 - 2,T 0 0 0 - 1,T 1 0 0 - 1,C 1||- -,- - => accepted
a weak abort round a fork that may join: fc600000,fc000101,fc800000,fc400000,fc400000,fc200000,bc03fffc,fc400000,fd400000|||0,5|w 8 4|5 1 0|1 0 1 0|6|T 0 0 0 3 -,T 0 1 0 0 2 - 2 3,T 0 1 0 0 - 2 - 2,T 0 0 0 - 1,T 0 0 0 - 1,T 1 0 0 1 -,T 1 0 0 2 2,T 1 0 0 - 1,C 1||3 5,2 2 => accepted
a strong abort round a pause: fc600000,fc200000,fc800000,fc400000,30630001,30630001,30630001,fc400000,fd400000|||0|s 8 4|1 0 1 0||6|T 0 0 0 2 -,T 0 1 0 0 1 - 1 -,T 0 1 0 0 - 2 - 2,T 0 0 0 - 1,T 0 0 0 - 4,T 0 0 0 - 3,T 0 0 0 - 2,T 0 0 0 - 1,C 1||- 5 => accepted
calls: fca00002,fc400000,fca00004,fcc00000,fcc00000|||0||||6|T 0 0 0 - 5,T 0 0 0 - 1,R 2 0 3,R 2 0 1,R 1 0 1||- - => accepted
a loop that is dropped: fce00002,fd000005,bc030008,b800fff8,fd200000,fc400000|||0||||10|T 0 0 0 - 9,T 0 0 1 0 - 2,T 0 0 1 0 - 4,T 0 0 1 0 - 3,T 0 0 1 0 - 2,T 0 0 0 - 1|0 3|- - => accepted
two weak aborts: fc600000,fc600001,fc200000,fc800000,fc800000,fc400000,fd400000,fc400000,fc400000|||0|w 6 5,w 6 4|2 0 2 0 1||6|T 0 0 0 3 -,T 0 1 0 0 2 - 2 3,T 0 2 0 1 0 1 - 1 2 1 3,T 0 2 0 1 0 - 3 - 3 - 3,T 0 1 0 0 - 2 - 2,T 0 0 0 - 1,C 1,-,-||- 5 => accepted
a bad load: e8600008,fc200000,b800fff8|||0||1 0 0||4|T 0 0 0 2 -,T 0 0 0 1 -,T 0 0 0 3 -||3 - => accepted
a fork that never rests: fc600000,fc000101,fc800000,fc400000,fc400000,fc200000,b800fffc,fd400000|||0,5|w 7 4|5 1 0|1 0 1 0|5|T 0 0 0 3 -,T 0 1 0 0 2 - 2 3,T 0 1 0 0 - 2 - 2,T 0 0 0 - 1,T 0 0 0 - 1,T 1 0 0 1 -,T 1 0 0 2 -,C 1||3 4,2 - => accepted
an upper half: b0000000,30630001,e8600000,f8600004,fc400000|||0||||6|T 0 0 0 - 5,T 0 0 0 - 4,T 0 0 0 - 3,T 0 0 0 - 2,T 0 0 0 - 1||- - => accepted
two forks of one slot: fc000101,fc000101,fc400000,fc400000|||0,3|||0 0 0,1 0 0|6|T 0 0 0 - 5,T 0 0 0 - 3,T 0 0 0 - 1,T 1 0 0 - 1||- -,- - => no A2 at 1 level 0 needed 0 given 0
";

/// A sentence on the shape is broken alone: sizes, points, aborts, and words that lead on.
pub const THREADS: &str =
    "a line too many: fc400000|||0||||2|T 0 0 0 - 1,-||- - => no A1 at 0 level 0 needed 0 given 0
numbers for a slot too many: fc400000|||0||||2|T 0 0 0 - 1||- -,- - => no A1 at 0 level 0 needed 0 given 0
slot 0 starts without a line: fc400000|||0||||2|-||- - => no A1 at 0 level 0 needed 0 given 0
slot 0 starts in another slot: fc400000,fc400000|||0,1||||2|T 1 0 0 - 1,T 1 0 0 - 1||- -,- - => no A1 at 0 level 0 needed 0 given 0
a listed pause is no pause word: b8000004,fc400000|||0||1 0 0||3|T 0 0 0 - 2,T 0 0 0 - 1||- - => no A1 at 1 level 0 needed 0 given 0
a listed pause has no line: b8000004,fc400000,fc200000|||0||2 0 0||3|T 0 0 0 - 2,T 0 0 0 - 1,-||- - => no A1 at 2 level 0 needed 0 given 0
a listed pause is of another slot: b8000004,fc200000,fc400000|||0,2||1 1 0||4|T 0 0 0 2 -,T 0 0 0 1 -,T 1 0 0 - 1||- -,- - => no A1 at 1 level 0 needed 0 given 0
a listed fork is no fork word: b8000004,fc400000|||0|||1 0 0|3|T 0 0 0 - 2,T 0 0 0 - 1||- - => no A1 at 1 level 0 needed 0 given 0
a listed fork has no line: b8000004,fc400000,fc000101|||0,1|||2 0 0|3|T 0 0 0 - 2,T 0 0 0 - 1,-||- -,- - => no A1 at 2 level 0 needed 0 given 0
a word does not decode: b8000004,ffffffff|||0||||3|T 0 0 0 - 2,T 0 0 0 - 1||- - => no A1 at 1 level 0 needed 0 given 0
a slot is not in the image: b8000004,fc400000,fc400000|||0||||3|T 0 0 0 - 2,T 0 0 0 - 1,T 1 0 0 - 1||- - => no A1 at 2 level 0 needed 0 given 0
the condition of an abort has no C line: fc600000,fc200000,b800fffc,b800fff4,e8600000,fd430000|0||0|w 4 3|1 0 1 0||9|T 0 0 0 2 -,T 0 1 0 0 1 - 4 -,T 0 1 0 0 2 - 5 -,T 0 0 0 3 -,-,C 1||7 - => no A1 at 1 level 0 needed 0 given 0
the handler of an abort has no line: fc600000,fc200000,b800fffc,b800fff4,e8600000,fd430000|0||0|w 4 3|1 0 1 0||9|T 0 0 0 2 -,T 0 1 0 0 1 - 4 -,T 0 1 0 0 2 - 5 -,-,C 2,C 1||7 - => no A1 at 1 level 0 needed 0 given 0
an abort is not in the table: b8000004,fc400000,fc400000|||0||||3|T 0 0 0 - 2,T 0 0 0 - 1,T 0 1 0 0 - 1 - 1||- - => no A1 at 2 level 0 needed 0 given 0
the next place has another kind: 30630001,fc400000|||0||||3|T 0 0 0 - 2,-||- - => no A1 at 0 level 0 needed 0 given 0
a branch leads to another kind: bc030008,fc400000,fc400000|||0||||3|T 0 0 0 - 2,T 0 0 0 - 1,-||- - => no A1 at 0 level 0 needed 0 given 0
a jump leads out of the code: b8000008,fc400000|||0||||3|T 0 0 0 - 2,T 0 0 0 - 1||- - => no A1 at 0 level 0 needed 0 given 0
the word behind imm takes no upper half: b0000001,10600000,fc400000|||0||||4|T 0 0 0 - 3,T 0 0 0 - 2,T 0 0 0 - 1||- - => no A1 at 0 level 0 needed 0 given 0
a branch leads behind imm: b0000000,30630001,bc03fffc,fc400000|||0||||9|T 0 0 0 - 4,T 0 0 0 - 3,T 0 0 0 - 2,T 0 0 0 - 1||- - => no A1 at 0 level 0 needed 0 given 0
slot 0 starts behind imm: b0000000,30630001,fc400000|||1||||9|T 0 0 0 - 3,T 0 0 0 - 2,T 0 0 0 - 1||- - => no A1 at 0 level 0 needed 0 given 0
a pause inside a loop: fce00001,fc200000,fc400000|||0||1 0 0||9|T 0 0 0 3 -,T 0 0 1 0 1 -,T 0 0 1 0 - 1|0 1|- - => no A1 at 1 level 0 needed 0 given 0
a pause that is not listed: b8000004,fc200000,fc400000|||0||||9|T 0 0 0 2 -,T 0 0 0 1 -,T 0 0 0 - 1||- - => no A1 at 1 level 0 needed 0 given 0
the place behind a pause has no line: b8000004,fc200000,fc400000|||0||1 0 0||9|T 0 0 0 2 -,T 0 0 0 1 -,-||- - => no A1 at 1 level 0 needed 0 given 0
a fork that is not listed: fc000101,fc400000,fc400000|||0,2||||9|T 0 0 0 - 3,T 0 0 0 - 1,T 1 0 0 - 1||- -,- - => no A1 at 0 level 0 needed 0 given 0
the first child is not over the slot: fc000001,fc400000,fc400000|||0,2|||0 0 0|9|T 0 0 0 - 3,T 0 0 0 - 1,T 1 0 0 - 1||- -,- - => no A1 at 0 level 0 needed 0 given 0
a fork of no children: fc000100,fc400000,fc400000|||0,2|||0 0 0|9|T 0 0 0 - 3,T 0 0 0 - 1,T 1 0 0 - 1||- -,- - => no A1 at 0 level 0 needed 0 given 0
a child is no slot of the image: fc000102,fc400000,fc400000|||0,2|||0 0 0|9|T 0 0 0 - 3,T 0 0 0 - 1,T 1 0 0 - 1||- -,- - => no A1 at 0 level 0 needed 0 given 0
a child starts without a line: fc000101,fc400000,fc400000|||0,2|||0 0 0|9|T 0 0 0 - 3,T 0 0 0 - 1,-||- -,- - => no A1 at 0 level 0 needed 0 given 0
the place behind a fork has no line: fc000101,fc400000,fc400000|||0,2|||0 0 0|9|T 0 0 0 - 3,-,T 1 0 0 - 1||- -,- - => no A1 at 0 level 0 needed 0 given 0
";

/// The same: forks, routines, loops and conditions; and each word of the counter is replaced.
pub const ROUTINES: &str =
    "an end inside an abort: fc600000,fc400000,fc400000,fd400000|||0|s 3 2|||9|T 0 0 0 - 2,T 0 1 0 0 - 1 - 1,T 0 0 0 - 1,C 1||- - => no A1 at 1 level 0 needed 0 given 0
an abort that is not in the table is entered: fc600001,fc800000,fc400000,fd400000|||0|s 3 2|||9|T 0 0 0 - 3,T 0 1 0 0 - 2 - 2,T 0 0 0 - 1,C 1||- - => no A1 at 0 level 0 needed 0 given 0
the place behind abrt is not inside it: fc600000,fc400000,fc400000,fd400000|||0|s 3 2|||9|T 0 0 0 - 2,T 0 0 0 - 1,T 0 0 0 - 1,C 1||- - => no A1 at 0 level 0 needed 0 given 0
a leave inside no abort: fc800000,fc400000|||0||||9|T 0 0 0 - 2,T 0 0 0 - 1||- - => no A1 at 0 level 0 needed 0 given 0
the place behind leave is inside the abort: fc600000,fc800000,fc400000,fd400000,fc400000|||0|s 3 4|||9|T 0 0 0 - 3,T 0 1 0 0 - 2 - 2,-,C 1,T 0 0 0 - 1||- - => no A1 at 1 level 0 needed 0 given 0
a call of a thread: fca00001,fc400000|||0||||9|T 0 0 0 - 2,T 0 0 0 - 1||- - => no A1 at 0 level 0 needed 0 given 0
a call of a routine inside a loop: fca00002,fc400000,fcc00000|||0||||9|T 0 0 0 - 3,T 0 0 0 - 1,R 1 1 2 1|2 1|- - => no A1 at 0 level 0 needed 0 given 0
a call of a routine of the same height: fca00002,fc400000,fca00002,fcc00000|||0||||7|T 0 0 0 - 6,T 0 0 0 - 1,R 1 0 4,R 1 0 1||- - => no A1 at 2 level 0 needed 0 given 0
a call in a condition: b8000004,fc400000,fca00004,fd400000,fcc00000|||0||||9|T 0 0 0 - 2,T 0 0 0 - 1,C 3,C 1,R 1 0 1||- - => no A1 at 2 level 0 needed 0 given 0
the place behind a call has no line: fca00002,fc400000,fcc00000|||0||||9|T 0 0 0 - 3,-,R 1 0 1||- - => no A1 at 0 level 0 needed 0 given 0
a return in a thread: fcc00000|||0||||9|T 0 0 0 - 1||- - => no A1 at 0 level 0 needed 0 given 0
a return inside a loop: b8000004,fc400000,fce00001,fcc00000|||0||||9|T 0 0 0 - 2,T 0 0 0 - 1,R 1 0 3,R 1 1 2 1|2 1|- - => no A1 at 3 level 0 needed 0 given 0
a loop in a condition: b8000004,fc400000,fce00001,fd400000|||0||||9|T 0 0 0 - 2,T 0 0 0 - 1,C 3,C 1|2 1|- - => no A1 at 2 level 0 needed 0 given 0
a loop without a weight: fce00001,fd200000,fc400000|||0||||9|T 0 0 0 - 3,T 0 0 1 0 - 2,T 0 0 0 - 1||- - => no A1 at 0 level 0 needed 0 given 0
the place behind loop is not inside it: fce00001,fc400000|||0||||9|T 0 0 0 - 3,T 0 0 0 - 1|0 1|- - => no A1 at 0 level 0 needed 0 given 0
a loop inside eight: fce00001,fce00001,fce00001,fce00001,fce00001,fce00001,fce00001,fce00001,fce00001,fc400000|||0||||99|T 0 0 0 - 30,T 0 0 1 0 - 30,T 0 0 2 0 1 - 30,T 0 0 3 0 1 2 - 30,T 0 0 4 0 1 2 3 - 30,T 0 0 5 0 1 2 3 4 - 30,T 0 0 6 0 1 2 3 4 5 - 30,T 0 0 7 0 1 2 3 4 5 6 - 30,T 0 0 8 0 1 2 3 4 5 6 7 - 30,-|0 1,1 1,2 1,3 1,4 1,5 1,6 1,7 1,8 1|- - => no A1 at 8 level 0 needed 0 given 0
a next inside no loop: fd000001,fc400000|||0||||9|T 0 0 0 - 3,T 0 0 0 - 1||- - => no A1 at 0 level 0 needed 0 given 0
a next whose loop has no weight: b8000004,fc400000,fd000001,b800fffc|||0||||9|T 0 0 0 - 2,T 0 0 0 - 1,T 0 0 1 0 - 9,T 0 0 1 0 - 9||- - => no A1 at 2 level 0 needed 0 given 0
the place behind next is outside: fce00001,fd000003,fc400000,fc400000|||0||||9|T 0 0 0 - 5,T 0 0 1 0 - 2,-,T 0 0 0 - 1|0 1|- - => no A1 at 1 level 0 needed 0 given 0
next leads inside its loop: fce00001,fd000002,b800fffc|||0||||9|T 0 0 0 - 5,T 0 0 1 0 - 2,T 0 0 1 0 - 3|0 1|- - => no A1 at 1 level 0 needed 0 given 0
a drop inside no loop: fd200000,fc400000|||0||||9|T 0 0 0 - 3,T 0 0 0 - 1||- - => no A1 at 0 level 0 needed 0 given 0
the place behind drop is inside: fce00001,fd200000,b800fffc|||0||||9|T 0 0 0 - 5,T 0 0 1 0 - 2,T 0 0 1 0 - 3|0 1|- - => no A1 at 1 level 0 needed 0 given 0
a cend in a thread: fd400000,fc400000|||0||||9|T 0 0 0 - 2,T 0 0 0 - 1||- - => no A1 at 0 level 0 needed 0 given 0
an end in a condition: b8000004,fc400000,fc400000|||0||||9|T 0 0 0 - 2,T 0 0 0 - 1,C 1||- - => no A1 at 2 level 0 needed 0 given 0
a level without a number: b8000000|||0||||1|T 0 0 0 - -||- - => no A1 at 0 level 0 needed 0 given 0
word 0 of the counter is replaced: ffffffff,30630001,f8600004,fc200000,b800fff0|0|1|0||3 0 0||14|T 0 0 0 10 -,T 0 0 0 9 -,T 0 0 0 8 -,T 0 0 0 7 -,T 0 0 0 11 -||11 - => no A1 at 0 level 0 needed 0 given 0
word 1 of the counter is replaced: e8600000,ffffffff,f8600004,fc200000,b800fff0|0|1|0||3 0 0||14|T 0 0 0 10 -,T 0 0 0 9 -,T 0 0 0 8 -,T 0 0 0 7 -,T 0 0 0 11 -||11 - => no A1 at 1 level 0 needed 0 given 0
word 2 of the counter is replaced: e8600000,30630001,ffffffff,fc200000,b800fff0|0|1|0||3 0 0||14|T 0 0 0 10 -,T 0 0 0 9 -,T 0 0 0 8 -,T 0 0 0 7 -,T 0 0 0 11 -||11 - => no A1 at 2 level 0 needed 0 given 0
word 3 of the counter is replaced: e8600000,30630001,f8600004,ffffffff,b800fff0|0|1|0||3 0 0||14|T 0 0 0 10 -,T 0 0 0 9 -,T 0 0 0 8 -,T 0 0 0 7 -,T 0 0 0 11 -||11 - => no A1 at 3 level 0 needed 0 given 0
word 4 of the counter is replaced: e8600000,30630001,f8600004,fc200000,ffffffff|0|1|0||3 0 0||14|T 0 0 0 10 -,T 0 0 0 9 -,T 0 0 0 8 -,T 0 0 0 7 -,T 0 0 0 11 -||11 - => no A1 at 4 level 0 needed 0 given 0
";

/// Two demands fail.
pub const ORDERS: &str =
    "the shape comes before an edge that stands before it: e8600000,30630001,f8600004,fc200000,b800fff0|0|1|0||3 0 0||8|T 0 0 0 3 -,T 0 0 0 3 -,T 0 0 0 2 -,T 0 0 0 1 -,-||5 - => no A1 at 3 level 0 needed 0 given 0
forks of one slot come before edges: fc000101,fc000101,fc400000,fc400000|||0,3|||0 0 0,1 0 0|6|T 0 0 0 - 4,T 0 0 0 - 3,T 0 0 0 - 1,T 1 0 0 - 1||- -,- - => no A2 at 1 level 0 needed 0 given 0
an edge comes before a pause that stands before it: e8600000,30630001,f8600004,fc200000,b800fff0|0|1|0||3 0 0||8|T 0 0 0 4 -,T 0 0 0 3 -,T 0 0 0 2 -,T 0 0 0 0 -,T 0 0 0 3 -||5 - => no A3 at 4 level 0 needed 5 given 3
a pause comes before a fork that stands before it: fc000102,30630001,fc200000,fc400000,fc200000,fc400000,fc400000|||0,4,6||2 0 0,4 1 0|0 0 0|4|T 0 0 0 2 -,T 0 0 0 2 -,T 0 0 0 0 -,T 0 0 0 - 1,T 1 0 0 1 -,T 1 0 0 - 1,T 2 0 0 - 1||3 1,- 1,- - => no A4 at 2 level 0 needed 1 given 0
a fork comes before what is resumed: fc000102,30630001,fc200000,fc400000,fc200000,fc400000,fc400000|||0,4,6||2 0 0,4 1 0|0 0 0|4|T 0 0 0 2 -,T 0 0 0 2 -,T 0 0 0 1 -,T 0 0 0 - 1,T 1 0 0 1 -,T 1 0 0 - 1,T 2 0 0 - 1||3 1,- 0,- - => no A5 at 0 level 0 needed 3 given 2
what is resumed comes before the bound: fc000102,30630001,fc200000,fc400000,fc200000,fc400000,fc400000|||0,4,6||2 0 0,4 1 0|0 0 0|0|T 0 0 0 3 -,T 0 0 0 2 -,T 0 0 0 1 -,T 0 0 0 - 1,T 1 0 0 1 -,T 1 0 0 - 1,T 2 0 0 - 1||3 1,- 0,- - => no A6 at 4 level 0 needed 1 given 0
the least place comes first: fc000102,30630001,fc200000,fc400000,fc200000,fc400000,fc400000|||0,4,6||2 0 0,4 1 0|0 0 0|4|T 0 0 0 3 -,T 0 0 0 2 -,T 0 0 0 1 -,T 0 0 0 - 0,T 1 0 0 1 -,T 1 0 0 - 0,T 2 0 0 - 1||3 1,- 1,- - => no A3 at 3 level 0 needed 1 given 0
the least level comes first: fc600000,fc200000,b800fffc,b800fff4,e8600000,fd430000|0||0|w 4 3|1 0 1 0||9|T 0 0 0 2 -,T 0 1 0 0 1 - 4 -,T 0 1 0 0 1 - 4 -,T 0 0 0 3 -,C 2,C 1||7 - => no A3 at 2 level 0 needed 2 given 1
P comes before E: fc600000,fc000101,fc800000,fc400000,fc400000,fc200000,bc03fffc,fc400000,fd400000|||0,5|w 8 4|5 1 0|1 0 1 0|6|T 0 0 0 3 -,T 0 1 0 0 2 - 1 2,T 0 1 0 0 - 2 - 2,T 0 0 0 - 1,T 0 0 0 - 1,T 1 0 0 1 -,T 1 0 0 2 2,T 1 0 0 - 1,C 1||3 5,2 2 => no A5 at 1 level 1 needed 2 given 1
the untaken edge comes before the taken one: fce00002,fd000005,bc030008,b800fff8,fd200000,fc400000|||0||||10|T 0 0 0 - 9,T 0 0 1 0 - 2,T 0 0 1 0 - 2,T 0 0 1 0 - 3,T 0 0 1 0 - 2,T 0 0 0 - 1|0 3|- - => no A3 at 2 level 0 needed 4 given 2
the outer handler comes before the inner one: fc600000,fc600001,fc200000,fc800000,fc800000,fc400000,fd400000,fc400000,fc400000|||0|w 6 5,w 6 4|2 0 2 0 1||6|T 0 0 0 3 -,T 0 1 0 0 2 - 2 3,T 0 2 0 1 0 1 - 1 2 1 1,T 0 2 0 1 0 - 3 - 3 - 3,T 0 1 0 0 - 2 - 2,T 0 0 0 - 1,C 1,-,-||- 5 => no A4 at 2 level 2 needed 2 given 1
P of a resumed slot comes before E: fc600000,fc000101,fc800000,fc400000,fc400000,fc200000,bc03fffc,fc400000,fd400000|||0,5|w 8 4|5 1 0|1 0 1 0|6|T 0 0 0 3 -,T 0 1 0 0 2 - 2 3,T 0 1 0 0 - 2 - 2,T 0 0 0 - 1,T 0 0 0 - 1,T 1 0 0 1 -,T 1 0 0 2 2,T 1 0 0 - 1,C 1||2 4,2 2 => no A6 at 1 level 0 needed 3 given 2
";
