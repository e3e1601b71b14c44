//! The kinds of the whole standard whose names the fields of the profile's messages may have.

ghost use Rattle.std.specs.Prelude.{◌≡◌};
ghost use Rattle.llrp_json.specs.JsonNames.{standard_message, standard_parameter};

use llrp_schema::{
    Kind, KindSet, MsgKind, ParamKind, is_tv, msg_of_in, number, param_of_tlv_in, param_of_tv_in,
};

/// Which names the fields of messages have in lines of JSON.
#[derive(Clone, Copy, Debug, PartialEq, Eq)]
pub enum Names {
    /// Those of their own set of kinds: of the profile some are shorter.
    Own,
    /// Those of the whole standard.
    Standard,
}

/// The message of the whole standard with the number of this one.
#[tactic(auto, unfolding(crate::specs::JsonNames::standard_message))]
pub(crate) fn standard_message(kind: MsgKind) -> MsgKind
    ensures { result ≡ standard_message kind }
{
    let found = msg_of_in(KindSet::Standard, number(Kind::Message(kind)));
    found.unwrap_or(kind)
}

/// The parameter of the whole standard with the number of this one.
#[tactic(auto, unfolding(crate::specs::JsonNames::standard_parameter))]
pub(crate) fn standard_parameter(kind: ParamKind) -> ParamKind
    ensures { result ≡ standard_parameter kind }
{
    let number = number(Kind::Parameter(kind));
    let found = if is_tv(kind) {
        param_of_tv_in(KindSet::Standard, number as u8)
    } else {
        param_of_tlv_in(KindSet::Standard, number)
    };
    found.unwrap_or(kind)
}
