//! The listener that prints lines of JSON under the names of the whole standard.

ghost use Rattle.std.specs.Prelude.{◌≡◌, [], ◌∷◌, ◌++◌, map, refl};
ghost use Rattle.llrp_schema.specs.Calls.Schema.{field_rule};
ghost use Rattle.llrp_json.specs.Calls.OpenJson.{Awaits, Holds};
ghost use Rattle.llrp_json.specs.JsonNames.{in_standard};
ghost use Rattle.llrp_json.specs.Private.OpenJson.{AppendsMessage};
ghost use Rattle.llrp_json.specs.Private.StandardNames.{AreAwaited, standard_chain};

use crate::names::{standard_message, standard_parameter};
use crate::printer::JsonPrinter;
use llrp_listing::ItemPrinter;
use llrp_schema::{Field, Kind, MsgKind, ParamKind, Tail, fields};
use llrp_stream::{End, Listener, Stopped};
use llrp_tree::Fault;
use std::alloc::{AllocError, Global};

/// Prints each kind that it receives as that of the whole standard with its number.
#[derive(Drop)]
pub(crate) struct StandardPrinter {
    printer: JsonPrinter,
    /// The standard's rows of the fields that the innermost node awaits.
    awaited: &'static [Field],
}

impl StandardPrinter {
    /// A printer that has received nothing; it takes no memory.
    pub(crate) fn new(alloc: Global) -> StandardPrinter
        ensures { Holds result.printer.mark result.printer.depth result.printer.is_parent
            result.printer.text [] [] }
    {
        StandardPrinter {
            printer: JsonPrinter::new(alloc),
            awaited: &[],
        }
    }
}

impl Listener for StandardPrinter {
    ghost begins = { λ self was t. Awaits self.printer.mark self.printer.depth
        self.printer.is_parent self.printer.tail self.printer.has_words self.printer.text was
        (standard_chain t) × AreAwaited t (map field_rule self.awaited.now) };

    ghost stands = { λ self was t. Holds self.printer.mark self.printer.depth
        self.printer.is_parent self.printer.text was (standard_chain t) };

    ghost ends = { λ self was m now. AppendsMessage (in_standard m) was now };

    ghost faulty = { λ self was t octets fault. Unit {0} };

    fn message(
        &mut self,
        version: u8,
        kind: MsgKind,
        octets: u32,
        id: u32,
    ) -> Result<(), AllocError> {
        let kind = standard_message(kind);
        self.awaited = fields(Kind::Message(kind));
        self.printer.message(version, kind, octets, id)
    }

    fn parameter(&mut self, _level: u8, kind: ParamKind, _stop: u32) -> Result<(), AllocError> {
        let kind = standard_parameter(kind);
        self.awaited = fields(Kind::Parameter(kind));
        self.printer.open_parameter(kind)
    }

    fn field(&mut self, _rule: &Field, value: u128) -> Result<(), AllocError> {
        let rule = &self.awaited[0];
        self.awaited = &self.awaited[1..];
        self.printer.field(rule, value)
    }

    fn tail(&mut self, form: Tail) -> Result<(), AllocError> {
        self.printer.tail(form)
    }

    fn octets(&mut self, form: Tail, octets: &[u8]) -> Result<(), AllocError> {
        self.printer.octets(form, octets)
    }

    fn ready(&mut self) -> Result<(), AllocError> {
        self.printer.ready()
    }

    fn value(&mut self, _level: u8, kind: ParamKind, value: u128) -> Result<(), AllocError> {
        self.printer
            .push_parameter_of_value(standard_parameter(kind), value)
    }

    fn close(&mut self) -> Result<(), AllocError> {
        self.printer.close_parameter()
    }

    fn end(&mut self) -> Result<(), AllocError> {
        self.printer.end_line()
    }

    fn fault(&mut self, _fault: Fault, _stopped: Option<Stopped>, _octets: &[u8]) {
        self.give_up();
    }

    fn give_up(&mut self) {
        self.printer.give_up();
    }
}

impl ItemPrinter for StandardPrinter {
    ghost use Rattle.std.specs.Prelude.{◌∷◌, ◌++◌, [], refl};
    ghost use Rattle.llrp_json.specs.JsonLines.{end_json};
    ghost use Rattle.llrp_json.specs.JsonNames.{IsNamedJson};
    ghost use Rattle.llrp_json.specs.declared.names.Names.TheVariants.{Standard as OfStandard};

    ghost is_text = { IsNamedJson OfStandard };

    ghost text_of_end = { end_json };

    fn push_fault(&mut self, id: u32, fault: Fault) -> Result<(), AllocError> {
        self.printer.push_fault(id, fault)
    }

    fn push_end(&mut self, end: End) -> Result<(), AllocError> {
        self.printer.push_end(end)
    }

    fn whole(&self) -> &[u8] {
        self.printer.whole()
    }

    fn drop_whole(&mut self) {
        self.printer.drop_whole();
    }

    ghost message_text = { λ printer was m now appended. (appended.0 ++ 10 ∷ [], appended.2, (appended.0, appended.1, refl)) };
}
