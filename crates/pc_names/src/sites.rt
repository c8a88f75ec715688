ghost use Rattle.std.specs.Prelude.{◌≡◌, ◌++◌, ◌&&◌, not, OnOk, IfOk};
ghost use Rattle.pc_grammar.specs.Uses.{value_uses, statements_uses};
ghost use Rattle.pc_grammar.specs.Places.{word_of, place_of, names_of, is_start};
ghost use Rattle.pc_grammar.specs.Breaking as breaking;
ghost use Rattle.pc_names.specs.Started.{is_own, is_unknown};
ghost use Rattle.pc_names.specs.Names.{HasNames};
ghost use Rattle.pc_names.specs.Sites.{site_of, sites_of_uses, sites_of_locals, sites_of_item, sites_of};

use crate::before::Before;
use crate::names::Names;
use crate::rules::{is_input, is_miscounted, is_written, wrong_for_item, wrong_for_word};
use crate::threads::Threads;
use crate::uses::{Use, statements, value};
use pc_grammar::{Expr, Item, Role, Stmt, Word};
use pt_base::Memory;
use std::alloc::Global;
use std::marker::Model;

/// A use of a name, and what it names.
#[derive(Drop)]
pub struct Site<'a> {
    role: Role,
    word: &'a Word,
    own: bool,
    item: Option<&'a Item>,
}

impl<'a> Model for Site<'a> {
    ghost use Rattle.std.specs.Option.{option_map};
    ghost use Rattle.pc_names.specs.Sites.{Site as SpecSite, site_with};
    ghost use Rattle.std.specs.Coded.{codes};
    ghost use Rattle.pc_grammar.specs.contracts.expressions.Word as w;
    ghost use Rattle.pc_grammar.specs.contracts.expressions.Expr as e;
    ghost use Rattle.pc_grammar.specs.contracts.statements.Stmt as s;

    ghost coded = { Prim.hlevel (codes, (e.the_row w.the_row).coded, (s.the_row w.the_row).coded) };

    ghost Value = { SpecSite };

    ghost view = { λ s. site_with s.role s.word.now s.own (option_map (λ i. i.now) s.item) };
}

impl<'a> Site<'a> {
    /// The name.
    pub fn word(&self) -> &'a Word
        ensures { result.now ≡ self.now.word }
    {
        self.word
    }

    /// Whether a `PAR` names something here.
    pub fn starts(&self) -> bool
        ensures { result ≡ is_start self.now.role }
    {
        matches!(self.role, Role::Starts)
    }

    /// Whether a `PAR` names something here that is no parameter or local.
    pub fn starts_item(&self) -> bool
        ensures { result ≡ (is_start self.now.role && not (is_own self.now.found)) }
    {
        self.starts() && !self.own
    }

    /// Whether the name is nothing that is known here.
    pub fn is_unknown(&self) -> bool
        ensures { result ≡ is_unknown self.now.found }
    {
        !self.own && self.item.is_none()
    }

    /// Whether the name is of the wrong kind.
    #[tactic(auto, unfolding(pc_grammar::specs::Breaking::is_wrong))]
    pub fn is_wrong(&self, threads: &Threads<'_>) -> bool
        ensures { result ≡ breaking.is_wrong threads.now self.now.role self.now.found }
    {
        if self.own {
            return wrong_for_word(self.role);
        }
        match self.item {
            Some(item) => wrong_for_item(threads, item, self.role),
            None => false,
        }
    }

    /// Whether an input is assigned.
    pub fn writes_input(&self) -> bool
        ensures { result ≡ (breaking.is_written self.now.role && breaking.is_input self.now.found) }
    {
        if self.own {
            return false;
        }
        match self.item {
            Some(item) => is_written(self.role) && is_input(item),
            None => false,
        }
    }

    /// Whether a call has another number of arguments than parameters.
    pub fn is_miscounted(&self) -> bool
        ensures { result ≡ breaking.is_miscounted self.now.role self.now.found }
    {
        if self.own {
            return false;
        }
        match self.item {
            Some(item) => is_miscounted(self.role, item),
            None => false,
        }
    }
}

/// The site of a use, given the items before its function, and the parameters and locals declared before it there.
fn located<'a>(before: &Before<'a>, own: &Names<'_>, used: &Use<'a>) -> Site<'a>
    ensures { result ≡ site_of (place_of before.now own.now used.now) }
{
    let role = used.role();
    let word = used.word();
    if own.contains(word) {
        return Site {
            role,
            word,
            own: true,
            item: None,
        };
    }
    Site {
        role,
        word,
        own: false,
        item: before.item(word),
    }
}

fn add_uses<'a>(
    sites: &mut Vec<Site<'a>>,
    before: &Before<'a>,
    own: &Names<'_>,
    uses: &[Use<'a>],
) -> Result<(), Memory>
    ensures { OnOk result (sites.new.items ≡ sites.old.items ++ sites_of_uses before.now own.now uses.now) }
{
    for used in uses {
        sites.push(located(before, own, used))?;
    }
    Ok(())
}

fn add_value<'a>(
    alloc: Global,
    sites: &mut Vec<Site<'a>>,
    before: &Before<'a>,
    own: &Names<'_>,
    of: &'a Option<Expr<Word>>,
) -> Result<(), Memory>
    ensures { OnOk result (sites.new.items ≡ sites.old.items ++ sites_of_uses before.now own.now (value_uses of.now)) }
{
    let mut uses = Vec::new(alloc);
    value(&mut uses, of)?;
    add_uses(sites, before, own, &uses)
}

/// All these names.
fn all_names<'a>(alloc: Global, words: &'a [Word]) -> Result<Names<'a>, Memory>
    ensures { IfOk result (λ names. HasNames names words.now) }
{
    let mut names = Names::new(alloc);
    for word in words {
        names.insert(word)?;
    }
    Ok(names)
}

/// The sites in the values of locals; the names then known in the function are given back.
fn add_locals<'a>(
    alloc: Global,
    sites: &mut Vec<Site<'a>>,
    before: &Before<'a>,
    parameters: &'a [Word],
    locals: &'a [(Word, Option<Expr<Word>>)],
) -> Result<Names<'a>, Memory>
    ensures sites { OnOk result (sites.new.items ≡ sites.old.items ++ sites_of_locals before.now parameters.now locals.now) }
    ensures own { IfOk result (λ own. HasNames own (parameters.now ++ names_of locals.now)) }
{
    let mut own = all_names(alloc, parameters)?;
    for (name, of) in locals {
        add_value(alloc, sites, before, &own, of)?;
        own.insert(name)?;
    }
    Ok(own)
}

fn add_body<'a>(
    alloc: Global,
    sites: &mut Vec<Site<'a>>,
    before: &Before<'a>,
    own: &Names<'_>,
    body: &'a [Stmt<Word>],
    last: &'a Option<Expr<Word>>,
) -> Result<(), Memory>
    ensures { OnOk result (sites.new.items ≡
        sites.old.items ++ sites_of_uses before.now own.now (statements_uses body.now ++ value_uses last.now)) }
{
    let mut uses = Vec::new(alloc);
    statements(&mut uses, body)?;
    value(&mut uses, last)?;
    add_uses(sites, before, own, &uses)
}

fn add_item<'a>(
    alloc: Global,
    sites: &mut Vec<Site<'a>>,
    before: &Before<'a>,
    item: &'a Item,
) -> Result<(), Memory>
    ensures { OnOk result (sites.new.items ≡ sites.old.items ++ sites_of_item before.now item.now) }
{
    let Item::Function {
        parameters,
        locals,
        body,
        result,
        ..
    } = item
    else {
        return Ok(());
    };
    let own = add_locals(
        alloc,
        sites,
        before,
        parameters.as_slice(),
        locals.as_slice(),
    )?;
    add_body(alloc, sites, before, &own, body.as_slice(), result)?;
    Ok(())
}

/// The name of an item.
pub fn name_of(item: &Item) -> &Word
    ensures { result.now ≡ word_of item.now }
{
    match item {
        Item::Scalar { name, .. } => name,
        Item::Array { name, .. } => name,
        Item::Function { name, .. } => name,
    }
}

/// The sites of a program, in the order of the text: each use of a name, with what it names.
pub fn all_sites<'a>(alloc: Global, items: &'a [Item]) -> Result<Vec<Site<'a>>, Memory>
    ensures { IfOk result (λ sites. sites.items ≡ sites_of items.now) }
{
    let mut sites = Vec::new(alloc);
    let mut before = Before::none(alloc, items);
    for (place, item) in items.iter().enumerate() {
        add_item(alloc, &mut sites, &before, item)?;
        before = before.with(items, place)?;
    }
    Ok(sites)
}
