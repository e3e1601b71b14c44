//! The steps of a plan that are not taken yet.

ghost use Rattle.std.specs.Prelude.{◌≡◌, ◌∷◌};
ghost use Rattle.llrp_endpoints.specs.Private.GatheringStands.{Splits, StepAddsRoSpec, TakesFirst, awaited_after};
ghost use Rattle.llrp_endpoints.specs.Calls.GatheringStands.{adds_then_awaits, awaiting, checks_then_deletes, keeps_then_adds, later_of, starts_then_awaits, steps_left};
ghost use Rattle.llrp_endpoints.specs.Gathering.{awaited_for, without_waits};
ghost use Rattle.llrp_endpoints.specs.Plan.{ending, steps};

use crate::course::{Awaits, Step};
use crate::plan::Plan;
use llrp_session::Command;
use std::mem;

/// What a plan says of the steps after ADD_ROSPEC.
#[derive(Clone, Copy)]
pub(crate) struct Later {
    /// The ROSpec's id.
    pub(crate) id: u32,
    /// The client starts the ROSpec.
    pub(crate) starts: bool,
    /// How many reports with tags are still awaited.
    pub(crate) reports: u64,
    /// How many polls are left.
    pub(crate) polls: u16,
    /// The ROSpec was added.
    pub(crate) adds: bool,
    pub(crate) checked: bool,
    /// The ROSpec is disabled at the end, and not stopped.
    pub(crate) disables: bool,
}

/// What is left to do of a plan.
#[derive(Drop)]
pub(crate) enum RemainingCommands {
    /// Deleting the reader's ROSpec with this id, or all where it is 0, and what follows.
    Cleaning { id: u32, plan: Plan },
    /// Asking for KEEPALIVEs, and what follows.
    Keeping(Plan),
    /// Adding the ROSpec, and what follows.
    Adding(Plan),
    /// Enabling the ROSpec, and what follows.
    Enabling(Later),
    /// Starting the ROSpec, and what follows.
    Starting(Later),
    /// Awaiting reports, asking for reports, ending the ROSpec, and what follows.
    Awaiting(Later),
    /// Asking for the reader's ROSpecs if the plan is checked, and what follows.
    Checking { checked: bool, id: u32 },
    /// Deleting the ROSpec and closing the connection.
    Deleting { id: u32 },
    /// Closing the connection.
    Closing,
    Nothing,
}

impl RemainingCommands {
    /// All of a plan.
    pub(crate) fn all(plan: Plan) -> RemainingCommands
        ensures { steps_left result ≡ steps plan }
    {
        if plan.cleans() {
            RemainingCommands::Cleaning { id: 0, plan }
        } else if plan.renews() {
            let id = plan.rospec_id();
            RemainingCommands::Cleaning { id, plan }
        } else {
            after_cleaning(plan)
        }
    }

    /// The next step, if one is left, and what is left after it.
    fn split(self) -> Option<(Step, RemainingCommands)>
        ensures { Splits (steps_left self) result }
    {
        match self {
            RemainingCommands::Cleaning { id, plan } => {
                Some((Step::Send(Command::Delete { id }), after_cleaning(plan)))
            }
            RemainingCommands::Keeping(plan) => {
                let ms = plan.keepalive();
                Some((
                    Step::Send(Command::SetKeepalive { ms }),
                    after_keeping(plan),
                ))
            }
            RemainingCommands::Adding(plan) => {
                let later = later_of(&plan);
                let spec = plan.into_rospec();
                Some((
                    Step::Send(Command::Add { spec }),
                    RemainingCommands::Enabling(later),
                ))
            }
            RemainingCommands::Enabling(later) => Some((
                Step::Send(Command::Enable { id: later.id }),
                after_enabling(later),
            )),
            RemainingCommands::Starting(later) => Some((
                Step::Send(Command::Start { id: later.id }),
                RemainingCommands::Awaiting(later),
            )),
            RemainingCommands::Awaiting(later) => Some(await_or_poll(later)),
            RemainingCommands::Checking { checked: true, id } => {
                Some((
                    Step::Send(Command::GetRospecs),
                    RemainingCommands::Deleting { id },
                ))
            }
            RemainingCommands::Checking { checked: false, id } => {
                Some((
                    Step::Send(Command::Delete { id }),
                    RemainingCommands::Closing,
                ))
            }
            RemainingCommands::Deleting { id } => Some((
                Step::Send(Command::Delete { id }),
                RemainingCommands::Closing,
            )),
            RemainingCommands::Closing => Some((
                Step::Send(Command::Close),
                RemainingCommands::Nothing,
            )),
            RemainingCommands::Nothing => None,
        }
    }

    /// The same without the steps that only await a report.
    pub(crate) fn without_waits(self) -> RemainingCommands
        ensures { steps_left result ≡ without_waits (steps_left self) }
    {
        match self {
            RemainingCommands::Cleaning { id, plan } => RemainingCommands::Cleaning {
                id,
                plan: plan.awaiting(0),
            },
            RemainingCommands::Keeping(plan) => RemainingCommands::Keeping(plan.awaiting(0)),
            RemainingCommands::Adding(plan) => RemainingCommands::Adding(plan.awaiting(0)),
            RemainingCommands::Enabling(later) => RemainingCommands::Enabling(without_reports(
                later,
            )),
            RemainingCommands::Starting(later) => RemainingCommands::Starting(without_reports(
                later,
            )),
            RemainingCommands::Awaiting(later) => RemainingCommands::Awaiting(without_reports(
                later,
            )),
            RemainingCommands::Checking { checked, id } => {
                RemainingCommands::Checking { checked, id }
            }
            RemainingCommands::Deleting { id } => RemainingCommands::Deleting { id },
            RemainingCommands::Closing => RemainingCommands::Closing,
            RemainingCommands::Nothing => RemainingCommands::Nothing,
        }
    }

    /// Takes the next step, if one is left.
    pub(crate) fn next(&mut self) -> Option<Step>
        ensures { TakesFirst (steps_left self.old) (steps_left self.new) result }
    {
        let (step, left) = mem::replace(self, RemainingCommands::Nothing).split()?;
        *self = left;
        Some(step)
    }
}

/// The same, but no reports with tags are awaited.
fn without_reports(later: Later) -> Later
    ensures { result ≡ record later { reports = 0 } }
{
    Later {
        reports: 0,
        ..later
    }
}

/// What is left of a plan once the reader's ROSpecs are deleted, if they are.
fn after_cleaning(plan: Plan) -> RemainingCommands
    ensures { steps_left result ≡ keeps_then_adds plan }
{
    if plan.keepalive() > 0 {
        RemainingCommands::Keeping(plan)
    } else {
        after_keeping(plan)
    }
}

/// What is left of a plan once KEEPALIVEs are asked for, if they are.
fn after_keeping(plan: Plan) -> RemainingCommands
    ensures { steps_left result ≡ adds_then_awaits plan }
{
    if plan.adds() {
        RemainingCommands::Adding(plan)
    } else {
        RemainingCommands::Awaiting(later_of(&plan))
    }
}

/// What a plan says of the steps after ADD_ROSPEC.
fn later_of(plan: &Plan) -> Later
    ensures { result ≡ later_of plan.now }
{
    Later {
        id: plan.rospec_id(),
        starts: plan.is_started(),
        reports: plan.reports(),
        polls: plan.polls(),
        adds: plan.adds(),
        checked: plan.is_checked(),
        disables: plan.disables(),
    }
}

/// What is left once the ROSpec is enabled.
fn after_enabling(later: Later) -> RemainingCommands
    ensures { steps_left result ≡ starts_then_awaits later }
{
    if later.starts {
        RemainingCommands::Starting(later)
    } else {
        RemainingCommands::Awaiting(later)
    }
}

/// The next step once the ROSpec was started, and what is left after it: a report is awaited or
/// asked for, or the ROSpec ends.
fn await_or_poll(later: Later) -> (Step, RemainingCommands)
    ensures next { awaiting later ≡ result.0 ∷ steps_left result.1 }
    ensures kind { StepAddsRoSpec result.0 }
{
    match later {
        Later {
            reports: 0,
            polls: 0,
            adds: false,
            ..
        } => (Step::Send(Command::Close), RemainingCommands::Nothing),
        Later {
            reports: 0,
            polls: 0,
            checked,
            id,
            ..
        } => {
            (
                Step::Send(ending(later)),
                RemainingCommands::Checking { checked, id },
            )
        }
        Later {
            reports: 0,
            polls,
            ..
        } => {
            let polls = polls - 1;
            let left = RemainingCommands::Awaiting(Later { polls, ..later });
            (Step::Send(Command::GetReport), left)
        }
        Later { reports, .. } => {
            let reports = reports - 1;
            (
                Step::AwaitTags,
                RemainingCommands::Awaiting(Later { reports, ..later }),
            )
        }
    }
}

/// The command that ends the ROSpec.
fn ending(later: Later) -> Command
    ensures { result ≡ ending later.disables later.id }
{
    let id = later.id;
    if later.disables {
        Command::Disable { id }
    } else {
        Command::Stop { id }
    }
}

/// What has to come after a command before the next step is taken.
fn awaited_for(command: &Command) -> Awaits
    ensures { result ≡ awaited_for command.now }
{
    match command {
        Command::GetReport => Awaits::Report,
        Command::Close => Awaits::End,
        _ => Awaits::Answer,
    }
}

/// What has to come after a step before the next one is taken.
pub(crate) fn awaited_after(step: &Step) -> Awaits
    ensures { result ≡ awaited_after step.now }
{
    match step {
        Step::Send(command) => awaited_for(command),
        Step::AwaitTags => Awaits::TaggedReport,
    }
}
