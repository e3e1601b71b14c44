//! What a reader reads in a message.

ghost use Rattle.std.specs.Prelude.{◌≡◌, ◌<◌, ◌^◌, [], ◌∷◌, find as find_first, slice_index};
ghost use Rattle.llrp_session.specs.RoSpec.{is_kind};
ghost use Rattle.llrp_schema.specs.declared.kinds.Kind.TheVariants.{Message as MessageOf};
ghost use Rattle.llrp_schema.specs.Schema.{plain_fields_of, any_field as field_rule};
ghost use Rattle.llrp_session.specs.Reading as reading;
ghost use Rattle.llrp_session.specs.Private.ReadWords.{IsRequest, config_by, keepalive_by};

use super::find::{field, first};
use super::parsed::{Config, KeepaliveSpec, Request};
use super::rospec::{report_spec, settings};
use llrp_tree::{Message, MsgKind, Nodes, ParamKind};

/// The first KeepaliveSpec among some parameters.
#[tactic(auto, unfolding(llrp_schema::specs::Schema::fields_of, llrp_schema::specs::Schema::rule_of, llrp_schema::specs::Schema::param_rule))]
fn keepalive(nodes: &Nodes) -> Option<KeepaliveSpec>
    ensures { keepalive_by result ≡ reading.keepalive_where
        (find_first (is_kind ParamKind.KeepaliveSpec) nodes.now) }
{
    let kind = ParamKind::KeepaliveSpec;
    let node = first(kind, nodes)?;
    Some(KeepaliveSpec {
        trigger: field(kind, Some(node), 0) as u8,
        period: field(kind, Some(node), 1) as u32,
    })
}

/// Reads SET_READER_CONFIG; parameters that this reader does not use are ignored.
fn config(message: &Message) -> Config
    requires { message.now.kind ≡ MsgKind.SetReaderConfig }
    ensures { config_by result ≡ reading.config_in message.now.fields message.now.children }
{
    message.lawful();
    Config {
        reset: message.field(0) == 1,
        keepalive: keepalive(message.children()),
        report: report_spec(message.children()),
    }
}

/// Reads ADD_ROSPEC.
fn addition(nodes: &Nodes) -> Request
    ensures { IsRequest result (reading.adding (find_first (is_kind ParamKind.RoSpec) nodes.now)) }
{
    match first(ParamKind::RoSpec, nodes) {
        Some(rospec) => Request::AddRoSpec(settings(rospec)),
        None => Request::Unsupported,
    }
}

/// The ROSpecID of a message that has one field.
fn rospec_id(message: &Message) -> u32
    requires { plain_fields_of (MessageOf message.now.kind) ≡ field_rule "ROSpecID" 32 ∷ [] }
    ensures { result ≡ slice_index message.now.fields 0 }
{
    message.lawful();
    message.field(0) as u32
}

/// What a reader reads in a message.
#[tactic(auto, unfolding(crate::specs::Reading::request_of, llrp_schema::specs::Schema::fields_of, llrp_schema::specs::Schema::rule_of, llrp_schema::specs::Schema::message_rule))]
pub(crate) fn request_of(message: &Message) -> Request
    ensures { IsRequest result (reading.request_of message.now) }
{
    match message.kind() {
        MsgKind::AddRoSpec => addition(message.children()),
        MsgKind::DeleteRoSpec => Request::DeleteRoSpec(rospec_id(message)),
        MsgKind::StartRoSpec => Request::StartRoSpec(rospec_id(message)),
        MsgKind::StopRoSpec => Request::StopRoSpec(rospec_id(message)),
        MsgKind::EnableRoSpec => Request::EnableRoSpec(rospec_id(message)),
        MsgKind::DisableRoSpec => Request::DisableRoSpec(rospec_id(message)),
        MsgKind::GetRoSpecs => Request::GetRoSpecs,
        MsgKind::SetReaderConfig => Request::SetReaderConfig(config(message)),
        MsgKind::GetReport => Request::GetReports,
        MsgKind::CloseConnection => Request::CloseConnection,
        MsgKind::KeepaliveAck | MsgKind::EnableEventsAndReports | MsgKind::ErrorMessage => {
            Request::NoRequest
        }
        _ => Request::Unsupported,
    }
}
