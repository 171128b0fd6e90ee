//! By what messages are judged.
ghost use Rattle.std.specs.Prelude.{◌≡◌, ◌==◌, map};
ghost use Rattle.std.specs.List.{list_any};
ghost use Rattle.xdr_lang.specs.Views.{declared_of, program_of};
ghost use Rattle.oncrpc_watch.specs.Terms.{declaring, each_declared, first_declaring};

use oncrpc_messages::{Form, Heads, Settings};
use xdr_lang::{Declared, Program};
use xdr_types::Limits;

/// What is declared, the types of heads, the limits on each value, how messages are printed, and how much of them.
#[derive(Clone, Copy)]
pub struct Terms<'a> {
    /// What the texts declare that the words name, as one.
    pub declared: &'a Declared,
    /// What other texts declare, each by itself.
    pub known: &'a [Declared],
    /// The types of the head of a message and of AUTH_SYS.
    pub heads: &'a Heads,
    /// The limits on each argument and result, and on a head.
    pub limits: Limits,
    /// How messages are printed.
    pub form: Form,
    /// Whether nothing is printed of arguments and results that are values.
    pub brief: bool,
}

impl<'a> Terms<'a> {
    ghost use Rattle.std.specs.Prelude.{◌≡◌};
    ghost use Rattle.oncrpc_messages.specs.Settings.{settings_of};
    ghost use Rattle.oncrpc_watch.specs.Terms.{settings_by, terms_of};

    /// How messages of this program are read and printed: by what the words name where that has it, else by the first
    /// other text that has it. Where none has it, nothing of it is declared.
    pub fn settings(&self, program: u32) -> Settings<'a>
        ensures { settings_of result ≡ settings_by (terms_of self.now) program }
    {
        Settings {
            declared: declaring(self.declared, self.known, program),
            heads: self.heads,
            limits: self.limits,
            form: self.form,
            brief: self.brief,
        }
    }
}

// What declares a program: this one where it has it, else the first of the others that has it, else this one.
fn declaring<'a>(declared: &'a Declared, known: &'a [Declared], program: u32) -> &'a Declared
    ensures { declared_of result.now ≡ declaring (declared_of declared.now) (each_declared known.now) program }
{
    if has_program(declared.programs.as_slice(), program) {
        declared
    } else {
        first_declaring(declared, known, program)
    }
}

// The first of these that has a program, else this one.
fn first_declaring<'a>(declared: &'a Declared, known: &'a [Declared], program: u32) -> &'a Declared
    ensures { declared_of result.now ≡ first_declaring (declared_of declared.now) (each_declared known.now) program }
{
    for text in known {
        if has_program(text.programs.as_slice(), program) {
            return text;
        }
    }
    declared
}

// Whether one of these programs has this number.
fn has_program(programs: &[Program], program: u32) -> bool
    ensures { result ≡ list_any (λ p. p.number == program) (map program_of programs.now) }
{
    for other in programs {
        if other.number == program {
            return true;
        }
    }
    false
}
