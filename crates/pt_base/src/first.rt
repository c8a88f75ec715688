ghost use Rattle.std.specs.Prelude.{◌≡◌, None};
ghost use Rattle.pt_base.specs.First.{number_of, Fault, comes_before, sooner, fault_if, first_of};

use crate::rules::{Rule, Span};
use std::marker::Model;

/// The first of the faults that were noted: by the start of the span, then by the rule's number.
#[derive(Clone, Copy)]
pub struct First {
    found: Option<(Rule, Span)>,
}

impl Model for First {
    ghost use Rattle.std.specs.Prelude.{Option};
    ghost use Rattle.pt_base.specs.First.{Fault};

    ghost Value = { Option Fault };

    ghost view = { λ f. f.found };

    ghost inverse = { λ d. record { found = d } };
}

impl First {
    /// No fault was noted.
    pub fn nothing() -> First
        ensures { result ≡ None }
    {
        First { found: None }
    }

    /// One more fault was noted.
    pub fn note(self, rule: Rule, span: Span) -> First
        ensures { result ≡ sooner self (rule, span) }
    {
        match self.found {
            None => First {
                found: Some((rule, span)),
            },
            Some((other, another)) => {
                if before(rule, span, other, another) {
                    First {
                        found: Some((rule, span)),
                    }
                } else {
                    self
                }
            }
        }
    }

    /// One more fault was noted where something is broken.
    pub fn note_if(self, broken: bool, rule: Rule, span: Span) -> First
        ensures { result ≡ first_of self (fault_if broken (rule, span)) }
    {
        if broken { self.note(rule, span) } else { self }
    }

    /// The first fault.
    pub fn found(self) -> Option<(Rule, Span)>
        ensures { result ≡ self }
    {
        self.found
    }
}

fn number(rule: Rule) -> u32
    ensures { result ≡ number_of rule }
{
    rule as u32
}

fn before(rule: Rule, span: Span, other: Rule, another: Span) -> bool
    ensures { result ≡ comes_before (rule, span) (other, another) }
{
    span.from < another.from || (span.from == another.from && number(rule) < number(other))
}
