//! How a reader serves SET_READER_CONFIG.

ghost use Rattle.std.specs.Prelude.{◌≡◌, ◌≤◌, ◌+◌, ◌⊎◌, OnOk, OnErr, vec_len, vec_capacity};
ghost use Rattle.llrp_session.specs.Private.ReadWords.{keepalive_by, config_by};
ghost use Rattle.llrp_session.specs.ReaderMachine as machine;
ghost use Rattle.llrp_session.specs.Private.ReaderParts.{taken};
ghost use Rattle.llrp_session.specs.Calls.ReaderSteps.{Stands};

use super::requests::Head;
use super::status::{FIELD_ERROR, SUCCESS};
use super::timers::keepalive_from;
use super::{FACTORY_REPORT, Reader};
use crate::parse::parsed::{Config, KeepaliveSpec};
use crate::types::{Operation, ReportSpec};
use llrp_tree::Message;
use std::alloc::AllocError;

/// Whether the ROReportTrigger is above 2, which this reader does not take.
pub(crate) fn is_bad_report(report: Option<ReportSpec>) -> bool
    ensures { result ≡ machine.is_bad_report report }
{
    match report {
        Some(report) => report.trigger > 2,
        None => false,
    }
}

/// Whether a periodic KeepaliveSpec has a period of 0.
fn is_bad_keepalive(config: Config) -> bool
    ensures { result ≡ machine.is_bad_keepalive (config_by config).keepalive }
{
    match config.keepalive {
        Some(spec) => spec.trigger == 1 && spec.period == 0,
        None => false,
    }
}

impl Reader {
    /// Goes back to the factory default, without keepalives, if this is chosen.
    fn reset_if(&mut self, chosen: bool)
        ensures { self.new ≡ machine.reset_if chosen self.old }
    {
        if chosen {
            self.keepalive = None;
            self.report = FACTORY_REPORT;
        }
    }

    /// Puts a KeepaliveSpec into force, if there is one.
    fn set_keepalive(&mut self, now: u64, spec: Option<KeepaliveSpec>)
        ensures { self.new ≡ machine.set_keepalive now (keepalive_by spec) self.old }
    {
        if let Some(spec) = spec {
            self.keepalive = if spec.trigger == 0 {
                None
            } else {
                Some(keepalive_from(now, spec.period))
            };
        }
    }

    /// Puts a ROReportSpec into force, if there is one.
    fn set_report(&mut self, report: Option<ReportSpec>)
        ensures { self.new ≡ machine.set_report report self.old }
    {
        if let Some(report) = report {
            self.report = report;
        }
    }

    /// Puts settings into force.
    #[tactic(auto, unfolding(crate::specs::ReaderMachine::configured))]
    fn set_config(&mut self, now: u64, config: Config)
        ensures { self.new ≡ machine.configured now (config_by config) self.old }
    {
        self.reset_if(config.reset);
        self.set_keepalive(now, config.keepalive);
        self.set_report(config.report);
    }

    /// Serves SET_READER_CONFIG; the table stays as it is.
    pub(crate) fn configure(
        &mut self,
        head: Head,
        config: Config,
        out: &mut Vec<Message>,
    ) -> Result<(), AllocError>
        requires version { (head.version ≡ 1) ⊎ (head.version ≡ 2) }
        requires room { vec_len out.old + 3 ≤ vec_capacity out.old }
        ensures ok { OnOk result (Stands out.old.items (machine.set_reader_config head.moment
            head.version head.id (config_by config) (taken head.version self.old))
            out.new.items self.new) }
        ensures reader_unchanged { OnErr result (self.new ≡ self.old) }
        ensures out_unchanged { OnErr result (out.new.items ≡ out.old.items) }
    {
        if is_bad_report(config.report) || is_bad_keepalive(config) {
            return self.respond(head, Operation::Configuring, FIELD_ERROR, out);
        }
        self.respond(head, Operation::Configuring, SUCCESS, out)?;
        self.set_config(head.moment, config);
        Ok(())
    }
}
