//! A listener that does nothing.

use llrp_schema::{Field, MsgKind, ParamKind, Tail};
use llrp_stream::{Listener, Stopped};
use llrp_tree::Fault;
use std::alloc::AllocError;

#[derive(Drop)]
pub struct Silent {}

impl Listener for Silent {
    ghost use Rattle.std.specs.Prelude.{◌≡◌};

    ghost begins = { λ self was t. Unit {0} };

    ghost stands = { λ self was t. Unit {0} };

    ghost ends = { λ self was m now. Unit {0} };

    ghost faulty = { λ self was t octets fault. Unit {0} };

    fn message(
        &mut self,
        _version: u8,
        _kind: MsgKind,
        _octets: u32,
        _id: u32,
    ) -> Result<(), AllocError> {
        Ok(())
    }

    fn parameter(&mut self, _level: u8, _kind: ParamKind, _stop: u32) -> Result<(), AllocError> {
        Ok(())
    }

    fn field(&mut self, _rule: &Field, _value: u128) -> Result<(), AllocError> {
        Ok(())
    }

    fn tail(&mut self, _form: Tail) -> Result<(), AllocError> {
        Ok(())
    }

    fn octets(&mut self, _form: Tail, _octets: &[u8]) -> Result<(), AllocError> {
        Ok(())
    }

    fn ready(&mut self) -> Result<(), AllocError> {
        Ok(())
    }

    fn value(&mut self, _level: u8, _kind: ParamKind, _value: u128) -> Result<(), AllocError> {
        Ok(())
    }

    fn close(&mut self) -> Result<(), AllocError> {
        Ok(())
    }

    fn end(&mut self) -> Result<(), AllocError> {
        Ok(())
    }

    fn fault(&mut self, _fault: Fault, _stopped: Option<Stopped>, _octets: &[u8]) {
        self.give_up();
    }

    fn give_up(&mut self) {}
}
