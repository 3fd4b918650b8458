//! What a line of a trace is to a reader of its picture.
ghost use Rattle.std.specs.Prelude.{◌≡◌};
ghost use Rattle.draw_pictures.specs.Kinds.{kind_of, said_kind, stop_kind, class_of, ends_attempt, is_begin, is_closing, is_commit, is_finish, is_holding, is_idle, is_opening};

use stm_answers::answers::{Begin, Cancel, CloseGate, Commit, Irrev, Look};
use stm_model::alg::Alg;
use stm_model::stop::Stop;
use work_trace::line::Line;
use work_trace::said::Said;

/// What a line tells of its caller's attempt or closing.
#[derive(Clone, Copy, Drop, PartialEq, Eq)]
pub enum Kind {
    /// An attempt begins under this algorithm.
    Begins(Alg),
    /// The caller has to make the same call again.
    Waits,
    /// The same, while it holds the gate to be alone.
    Holds,
    /// An operation replied.
    Works,
    /// The attempt has become irrevocable.
    Promotes,
    /// The attempt ends: it committed what it wrote, at this time.
    Commits(u64),
    /// It committed, and had written nothing.
    Reads,
    /// It was cancelled.
    Cancels,
    /// Another caller was in its way.
    Conflicts,
    /// A log or the clock is full.
    Overflows,
    /// The caller has closed the gate.
    Closes,
    /// It has seen that no other is in an attempt.
    Sees,
    /// It has installed this algorithm and opened the gate.
    Installs(Alg),
    /// It has given its closing up and opened the gate.
    Reopens,
    /// Nothing is left to do.
    Idles,
    /// The schedule is over.
    Finishes,
}

fn stop_kind(stop: Stop) -> Kind
    ensures { result ≡ stop_kind stop }
{
    match stop {
        Stop::Conflict(_) => Kind::Conflicts,
        Stop::Full { .. } | Stop::ClockFull { .. } => Kind::Overflows,
    }
}

fn said_kind(said: Said) -> Kind
    ensures { result ≡ said_kind said }
{
    match said {
        Said::TryBegin(Begin::Begun(alg)) => Kind::Begins(alg),
        Said::TryBegin(Begin::Closed { .. }) => Kind::Waits,
        Said::TryBegin(Begin::Held { .. }) => Kind::Waits,
        Said::TryBegin(Begin::ClockFull { .. }) => Kind::Overflows,
        Said::Reply(_, _) => Kind::Works,
        Said::Stopped(_, stop) => stop_kind(stop),
        Said::TryCancel(Cancel::Cancelled { .. }) => Kind::Cancels,
        Said::TryCancel(Cancel::Irrevocable) => Kind::Works,
        Said::TryIrrevocable(Irrev::Granted) => Kind::Promotes,
        Said::TryIrrevocable(Irrev::Busy { .. }) => Kind::Holds,
        Said::TryIrrevocable(Irrev::Taken { .. }) => Kind::Cancels,
        Said::TryIrrevocable(Irrev::Conflict(_)) => Kind::Conflicts,
        Said::TryIrrevocable(Irrev::ClockFull { .. }) => Kind::Overflows,
        Said::TryCommit(Commit::Committed { time }) => Kind::Commits(time),
        Said::TryCommit(Commit::ReadOnly { .. }) => Kind::Reads,
        Said::TryCommit(Commit::Conflict(_)) => Kind::Conflicts,
        Said::TryCommit(Commit::Again { .. }) => Kind::Waits,
        Said::TryCommit(Commit::ClockFull { .. }) => Kind::Overflows,
        Said::TryClose(CloseGate::Closed) => Kind::Closes,
        Said::TryClose(CloseGate::Taken { .. }) => Kind::Waits,
        Said::Looked(Look::Quiet) => Kind::Sees,
        Said::Looked(Look::Busy { .. }) => Kind::Waits,
        Said::Installed(alg) => Kind::Installs(alg),
        Said::Reserved { .. } => Kind::Works,
        Said::Idle => Kind::Idles,
        Said::Dropped => Kind::Cancels,
        Said::Reopened => Kind::Reopens,
    }
}

/// The kind of a line.
pub fn line_kind(line: Line) -> Kind
    ensures { result ≡ kind_of line }
{
    match line {
        Line::Of { said, .. } => said_kind(said),
        Line::Finish => Kind::Finishes,
    }
}

impl Kind {
    /// The class of its shapes in the picture's style.
    pub fn class(self) -> &'static str
        ensures { result.now ≡ class_of self }
    {
        match self {
            Kind::Begins(_) => "begin",
            Kind::Waits | Kind::Holds => "wait",
            Kind::Works => "work",
            Kind::Promotes => "irrev",
            Kind::Commits(_) => "commit",
            Kind::Reads => "read",
            Kind::Cancels => "cancel",
            Kind::Conflicts => "conflict",
            Kind::Overflows => "full",
            Kind::Closes | Kind::Sees | Kind::Reopens => "gate",
            Kind::Installs(_) => "install",
            Kind::Idles => "idle",
            Kind::Finishes => "finish",
        }
    }

    /// Whether it ends its caller's attempt, or begins the next one.
    pub fn ends_attempt(self) -> bool
        ensures { result ≡ ends_attempt self }
    {
        match self {
            Kind::Begins(_)
            | Kind::Commits(_)
            | Kind::Reads
            | Kind::Cancels
            | Kind::Conflicts
            | Kind::Overflows => true,
            Kind::Waits
            | Kind::Holds
            | Kind::Works
            | Kind::Promotes
            | Kind::Closes
            | Kind::Sees
            | Kind::Installs(_)
            | Kind::Reopens
            | Kind::Idles
            | Kind::Finishes => false,
        }
    }

    /// Whether nothing is left to its caller.
    pub fn is_idle(self) -> bool
        ensures { result ≡ is_idle self }
    {
        match self {
            Kind::Idles => true,
            _ => false,
        }
    }

    /// Whether it begins an attempt.
    pub fn is_begin(self) -> bool
        ensures { result ≡ is_begin self }
    {
        match self {
            Kind::Begins(_) => true,
            _ => false,
        }
    }

    /// Whether it commits what was written.
    pub fn is_commit(self) -> bool
        ensures { result ≡ is_commit self }
    {
        match self {
            Kind::Commits(_) => true,
            _ => false,
        }
    }

    /// Whether it ends the schedule.
    pub fn is_finish(self) -> bool
        ensures { result ≡ is_finish self }
    {
        match self {
            Kind::Finishes => true,
            _ => false,
        }
    }

    /// Whether its attempt asks to be alone, or was granted it.
    pub fn is_holding(self) -> bool
        ensures { result ≡ is_holding self }
    {
        match self {
            Kind::Promotes | Kind::Holds => true,
            _ => false,
        }
    }

    /// Whether it closes the gate.
    pub fn is_closing(self) -> bool
        ensures { result ≡ is_closing self }
    {
        match self {
            Kind::Closes => true,
            _ => false,
        }
    }

    /// Whether it opens the gate again.
    pub fn is_opening(self) -> bool
        ensures { result ≡ is_opening self }
    {
        match self {
            Kind::Installs(_) | Kind::Reopens => true,
            _ => false,
        }
    }
}
