//! A directory's own answers for names: which file has the name there, or that no file has it. An
//! own answer overrides what the lower directory has.
ghost use Rattle.std.specs.Prelude.{◌≡◌, None, Some, IfNone, IfSome, IsSome, OnOk, OnErr};
ghost use Rattle.std.specs.Option.{option_copied};
ghost use Rattle.std.specs.FinMap as map;
ghost use Rattle.cs_tree_model.specs.Nexts.{IsEntryBelow};

use cs_names::Name;
use cs_tree_model::first_after;
use std::alloc::{AllocError, Global};
use std::collections::BTreeMap;
use std::marker::Model;

/// The answer for a name: the number of the file that has it, or None if no file has it.
#[derive(Drop)]
pub struct Answer {
    /// The map's key as a `Name`, so that a listing can lend it.
    pub name: Name,
    /// The number of the file that has the name; None if no file has it.
    pub number: Option<u64>,
}

/// A directory's own answers by name, each under the name that it has itself. For all other names
/// the lower directory decides.
#[derive(Drop)]
pub struct Answers {
    entries: BTreeMap<String, Answer>,
}

impl Model for Answers {
    ghost use Rattle.std.specs.BTreeMap.{get_by_text};
    ghost use Rattle.std.specs.FinMap as map;
    ghost use Rattle.std.specs.Prelude.{ℕ, Option};
    ghost use Rattle.std.specs.Coded.{coded_ℕ, coded_list, coded_option};
    ghost use Rattle.cs_tree_model.specs.Tree.{name_cmp};
    ghost use Rattle.cs_overlay.specs.Texts.{numbers_of, AreNamed};

    ghost Value = { map.FinMap name_cmp (Option ℕ) };

    ghost coded = { map.code (coded_list coded_ℕ) (coded_option coded_ℕ) };

    ghost view = { λ answers. numbers_of answers.entries.entries };

    ghost invariant = { λ answers. AreNamed (get_by_text answers.entries) };
}

impl Answers {
    /// No answers. It takes no memory.
    pub fn new(alloc: Global) -> Answers
        ensures { result ≡ map.empty }
    {
        Answers {
            entries: BTreeMap::new(alloc),
        }
    }

    /// The own answer for the name: the number of its file, or `Some(None)` if no file has it. None
    /// if there is no own answer, so that the lower directory decides.
    pub fn get(&self, name: &str) -> Option<Option<u64>>
        ensures { result ≡ map.get self.now name.now }
    {
        match self.entries.get(name) {
            Some(answer) => Some(answer.number),
            None => None,
        }
    }

    /// The first name with an own answer after `last`, or the first of all if `last` is None, and
    /// its answer. None if there is no such name, or if there is a bound and the name doesn't come
    /// before it.
    pub fn first_after(
        &self,
        last: Option<&Name>,
        bound: Option<&Name>,
    ) -> Option<(&Name, Option<u64>)>
        ensures some { IfSome result
            (λ e. IsEntryBelow (λ y. IsSome (map.get self.now y)) (option_copied last.entry)
            (option_copied bound.entry) (Some e.0.now)) }
        ensures value { IfSome result (λ e. map.get self.now e.0.now ≡ Some e.1) }
        ensures none { IfNone result
            (IsEntryBelow (λ y. IsSome (map.get self.now y)) (option_copied last.entry)
            (option_copied bound.entry) None) }
    {
        let all = &self.entries;
        // the answer has the name, too, as a Name
        let (_key, answer) = first_after(all, last, bound)?;
        Some((&answer.name, answer.number))
    }

    /// Sets the answer for a name, which may have one already. The only error is that memory runs
    /// out; then the answers are unchanged.
    pub fn insert(&mut self, name: Name, number: Option<u64>) -> Result<(), AllocError>
        ensures ok { OnOk result (self.new ≡ map.insert self.old name number) }
        ensures err { OnErr result (self.new ≡ self.old) }
    {
        let key = name.as_string().clone()?;
        self.entries.insert(key, Answer { name, number })?;
        Ok(())
    }

    /// Replaces the answer for a name, which the caller knows to have one. It takes no memory,
    /// unlike `insert`.
    pub fn replace(&mut self, name: &str, number: Option<u64>)
        requires { IsSome (map.get self.old name.now) }
        ensures { self.new ≡ map.insert self.old name.now number }
    {
        let Some(answer) = self.entries.get_mut(name) else {
            // the caller's name has an answer
            unreachable!();
        };
        answer.number = number;
    }
}
