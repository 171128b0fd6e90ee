//! Where a byte stands: on its line, and in which sections.
ghost use Rattle.std.specs.Prelude.{◌≡◌, ◌+◌, IfOk, IfErr, OnOk, length, ◌∷◌, Some, None};
ghost use Rattle.xdr_tokens.specs.declared.fault.Fault.{Fault};
ghost use Rattle.xdr_dialect.specs.Plain.{defining, directed, turn};
ghost use Rattle.xdr_dialect.specs.Private.Steps.{standing_of, Turns, Closes};
ghost use Rattle.xdr_dialect.specs.Answers.{texts};

use crate::directive::{Directive, name_of_definition, read_directive};
use crate::gate::Gate;
use crate::own_names::OwnNames;
use crate::part::Part;
use crate::spot::{Spot, blank};
use xdr_tokens::{Fault, Wrong};

/// Where a byte stands, and the sections around it, the innermost last.
#[derive(Drop)]
pub(crate) struct Standing<'a> {
    pub(crate) spot: Spot,
    pub(crate) gate: Gate,
    pub(crate) outer: Vec<Gate>,
    /// The names that the text has defined.
    pub(crate) defines: OwnNames<'a>,
}

/// A line has no meaning where it stands.
fn misplaced(left: usize) -> Fault
    ensures { result ≡ Fault.Refused Wrong.BadCharacter left }
{
    Fault::Refused {
        wrong: Wrong::BadCharacter,
        left,
    }
}

impl<'a> Standing<'a> {
    /// Goes into a section.
    #[tactic(auto, using(crate::proofs::Sections::one_more))]
    fn open(&mut self, gate: Gate) -> Result<(), Fault>
        ensures ok { OnOk result (standing_of self.new
            ≡ record (standing_of self.old) { gate = gate; outer = self.old.gate ∷ (standing_of self.old).outer }) }
        ensures memory { IfErr result (λ e. e ≡ Fault.NoMemory) }
    {
        self.outer.push(self.gate)?;
        self.gate = gate;
        Ok(())
    }

    /// Leaves a section.
    #[tactic(auto, using(crate::proofs::Sections::one_more))]
    fn close(&mut self, left: usize) -> Result<(), Fault>
        ensures { Closes result self.old self.new left }
    {
        match self.outer.pop() {
            Some(gate) => {
                self.gate = gate;
                Ok(())
            }
            None => Err(misplaced(left)),
        }
    }

    /// `#define` of a name.
    #[tactic(auto, using(crate::proofs::Places::placing))]
    fn define(&mut self, number: bool, name: &'a [u8]) -> Result<u8, Fault>
        ensures ok { IfOk result (λ b. record { byte = b; next = standing_of self.new }
            ≡ defining (standing_of self.old) number name.now) }
        ensures memory { IfErr result (λ e. e ≡ Fault.NoMemory) }
    {
        self.defines.push(name)?;
        if number {
            self.spot = Spot::Text;
            return Ok(b'=');
        }
        self.spot = Spot::Line(Part::Words);
        Ok(b' ')
    }

    /// A line of `#`, so many bytes before the end, and the name of one with `#define`.
    fn directed(&mut self, found: Directive, name: &'a [u8], left: usize) -> Result<u8, Fault>
        ensures { Turns result (directed (standing_of self.old) found name.now) self.new left }
    {
        let shown = self.gate.is_shown();
        self.spot = Spot::Line(Part::Words);
        match found {
            Directive::Section(None) if shown => return Err(misplaced(left)),
            Directive::Section(holds) => {
                let gate = self.gate.opened(holds.unwrap_or(false));
                self.open(gate)?;
            }
            Directive::Otherwise => match self.gate.turned() {
                Some(gate) => self.gate = gate,
                None => return Err(misplaced(left)),
            },
            Directive::OtherwiseIf(holds) => match self.gate.turned_if(holds) {
                Some(gate) => self.gate = gate,
                None => return Err(misplaced(left)),
            },
            Directive::End => self.close(left)?,
            Directive::Definition(number) if shown => return self.define(number, name),
            Directive::Other if shown => return Err(misplaced(left)),
            Directive::Definition(_) | Directive::Nothing | Directive::Other => {}
        }
        Ok(b' ')
    }

    /// The byte in place of `first`, before others.
    pub(crate) fn turn(&mut self, names: &[&str], first: u8, others: &'a [u8]) -> Result<u8, Fault>
        ensures { Turns result (turn (texts names.now) (standing_of self.old) first others.now) self.new
            (length others.now + 1) }
    {
        if self.spot.is_fresh() && first == b'#' {
            let found = read_directive(names, &self.defines, others);
            return self.directed(found, name_of_definition(others), others.len() + 1);
        }
        let byte = if self.gate.is_shown() {
            self.spot.kept(first)
        } else {
            blank(first)
        };
        self.spot = self.spot.next(first);
        Ok(byte)
    }
}
