//! What a handle holds.
ghost use Rattle.std.specs.Prelude.{◌≡◌, MatchOption};
ghost use Rattle.xdr_lang.specs.Views.{declared_of};
ghost use Rattle.c_values.specs.Answers.{Names, NamesNone};

use super::asking::kind_asked;
use std::marker::Model;
use xdr_lang::Declared;
use xdr_types::KindId;

/// Declarations, beside the last name of at most 64 bytes that was looked up and names a kind, and that kind. A
/// contract sees the declarations alone.
#[derive(Drop)]
pub struct State {
    declared: Declared,
    kind: Option<KindId>,
    count: usize,
    name: [u8; 64],
}

impl Model for State {
    ghost use Rattle.xdr_lang.specs.declared.declarations.Declared.{Declared};

    ghost Value = { Declared };

    ghost use Rattle.std.specs.Prelude.{◌≤◌, take, IfSome};
    ghost use Rattle.xdr_lang.specs.Views.{declared_of};
    ghost use Rattle.c_values.specs.Answers.{Names};

    ghost view = { λ s. s.declared };

    ghost invariant = { λ s. (s.count ≤ 64)
        × IfSome s.kind (λ kind. Names (declared_of s.declared) (take s.count s.name) kind.place) };
}

impl State {
    /// The declarations, which were not asked for a name yet.
    pub fn of(declared: Declared) -> State
        ensures { result ≡ declared }
    {
        State {
            declared,
            kind: None,
            count: 0,
            name: [0; 64],
        }
    }

    /// The declarations.
    pub fn declared(&self) -> &Declared
        ensures { result.now ≡ self.now }
    {
        &self.declared
    }

    /// The kind that the name names. None where the name is no text, or that of no kind. The name that is remembered is
    /// not looked up; one above 64 bytes, or of no kind, is looked up each time and not remembered.
    pub fn kind(&mut self, name: &[u8]) -> Option<KindId>
        ensures stay { self.new ≡ self.old }
        ensures kind { MatchOption result (NamesNone (declared_of self.old) name.now)
            (λ kind. Names (declared_of self.old) name.now kind.place) }
    {
        match self.kind {
            Some(kind) if &self.name[..self.count] == name => Some(kind),
            _ => self.look_up(name),
        }
    }

    /// The same for every name.
    fn look_up(&mut self, name: &[u8]) -> Option<KindId>
        ensures stay { self.new ≡ self.old }
        ensures kind { MatchOption result (NamesNone (declared_of self.old) name.now)
            (λ kind. Names (declared_of self.old) name.now kind.place) }
    {
        let kind = kind_asked(&self.declared, name)?;
        if name.len() <= 64 {
            self.name[..name.len()].copy_from_slice(name);
            self.count = name.len();
            self.kind = Some(kind);
        }
        Some(kind)
    }
}
