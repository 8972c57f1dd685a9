// What a call is refused by. Each layer has an enum of its own, and an upper layer's holds the lower one's whole. What
// `?` turns one into the other with is written out, since a derived `From` would promise nothing.
ghost use Rattle.std.specs.Prelude.{◌≡◌};
ghost use Rattle.book.specs.declared.fault.TaskFault.TheVariants.{Record as record_case};
ghost use Rattle.book.specs.declared.fault.RouteFault.TheVariants.{Task as task_case};
ghost use Rattle.book.specs.declared.fault.AnalysisFault.TheVariants.{Route as route_case, Semantics as semantics_case};
ghost use Rattle.book.specs.Faults.{Refusal, analysis_fault, at_0, record_fault, route_fault, search_fault, search_refusal, task_fault};

use path::{SearchFault, UnknownSemantics};
use platform::RecordFault;
use thiserror::Error;

// A refusal by number and place, whichever layer it comes from.
pub trait Fault: Copy {
    ghost refusal: { Self → Refusal };

    // The refusal's number.
    fn number(self) -> u8
        ensures { result ≡ (refusal self).number };

    // Where the fault is: the first position that is neither held nor present, otherwise 0.
    fn place(self) -> usize
        ensures { result ≡ (refusal self).place };
}

// Where a fault is that belongs to no entry.
const NO_PLACE: usize = 0;

impl Fault for RecordFault {
    ghost refusal = { record_fault };

    fn number(self) -> u8 {
        match self {
            RecordFault::Period => 2,
            RecordFault::Offset => 3,
            RecordFault::Response => 4,
        }
    }

    fn place(self) -> usize {
        NO_PLACE
    }
}

// A wrong number of rows is a wrong length, where a search is asked with no book.
impl Fault for SearchFault {
    ghost refusal = { search_refusal };

    fn number(self) -> u8 {
        match self {
            SearchFault::Length => 8,
            SearchFault::MacroPeriod => 12,
            SearchFault::Buffer => 13,
        }
    }

    fn place(self) -> usize {
        NO_PLACE
    }
}

impl Fault for UnknownSemantics {
    ghost refusal = { λ _. at_0 10 };

    fn number(self) -> u8 {
        10
    }

    fn place(self) -> usize {
        NO_PLACE
    }
}

// Faults of a task's number and record.
#[derive(Clone, Copy, Debug, PartialEq, Eq, Error)]
pub enum TaskFault {
    #[error("the number is above 127")]
    Number,
    #[error(transparent)]
    Record(RecordFault),
    // the number is a new one
    #[error("32 tasks are held")]
    Full,
    #[error("the number is not held")]
    NotHeld,
    #[error("the number is on the route")]
    OnRoute,
}

impl Fault for TaskFault {
    ghost refusal = { task_fault };

    fn number(self) -> u8 {
        match self {
            TaskFault::Number => 1,
            TaskFault::Record(fault) => fault.number(),
            TaskFault::Full => 5,
            TaskFault::NotHeld => 6,
            TaskFault::OnRoute => 7,
        }
    }

    fn place(self) -> usize {
        NO_PLACE
    }
}

impl From<RecordFault> for TaskFault {
    ghost from_gives = { λ x y. y ≡ record_case x };

    fn from(record: RecordFault) -> TaskFault {
        TaskFault::Record(record)
    }
}

// Faults of a route.
#[derive(Clone, Copy, Debug, PartialEq, Eq, Error)]
pub enum RouteFault {
    #[error(transparent)]
    Task(TaskFault),
    #[error("a route has 1 to 16 entries")]
    Length,
    // the entry at this position
    #[error("the entry at this place is neither held nor present")]
    Absent(usize),
}

impl Fault for RouteFault {
    ghost refusal = { route_fault };

    fn number(self) -> u8 {
        match self {
            RouteFault::Task(fault) => fault.number(),
            RouteFault::Length => 8,
            RouteFault::Absent(_) => 9,
        }
    }

    fn place(self) -> usize {
        match self {
            RouteFault::Task(fault) => fault.place(),
            RouteFault::Length => NO_PLACE,
            RouteFault::Absent(position) => position,
        }
    }
}

impl From<TaskFault> for RouteFault {
    ghost from_gives = { λ x y. y ≡ task_case x };

    fn from(task: TaskFault) -> RouteFault {
        RouteFault::Task(task)
    }
}

// Faults of an analysis.
#[derive(Clone, Copy, Debug, PartialEq, Eq, Error)]
pub enum AnalysisFault {
    #[error(transparent)]
    Route(RouteFault),
    #[error("the semantics is above 3")]
    Semantics,
    #[error("there is no route")]
    NoRoute,
    #[error("the macro-period is above 100000000")]
    MacroPeriod,
    #[error("the buffer is shorter than the route")]
    Buffer,
}

impl Fault for AnalysisFault {
    ghost refusal = { analysis_fault };

    fn number(self) -> u8 {
        match self {
            AnalysisFault::Route(route) => route.number(),
            AnalysisFault::Semantics => 10,
            AnalysisFault::NoRoute => 11,
            AnalysisFault::MacroPeriod => 12,
            AnalysisFault::Buffer => 13,
        }
    }

    fn place(self) -> usize {
        match self {
            AnalysisFault::Route(route) => route.place(),
            AnalysisFault::Semantics
            | AnalysisFault::NoRoute
            | AnalysisFault::MacroPeriod
            | AnalysisFault::Buffer => NO_PLACE,
        }
    }
}

impl From<RouteFault> for AnalysisFault {
    ghost from_gives = { λ x y. y ≡ route_case x };

    fn from(fault: RouteFault) -> AnalysisFault {
        AnalysisFault::Route(fault)
    }
}

impl From<TaskFault> for AnalysisFault {
    ghost from_gives = { λ x y. y ≡ route_case (task_case x) };

    fn from(task: TaskFault) -> AnalysisFault {
        AnalysisFault::Route(task.into())
    }
}

// A route that is held has 1 to 16 entries, so the search finds a wrong length only where there is none.
impl From<SearchFault> for AnalysisFault {
    ghost from_gives = { λ x y. y ≡ search_fault x };

    fn from(search: SearchFault) -> AnalysisFault {
        match search {
            SearchFault::Length => AnalysisFault::NoRoute,
            SearchFault::MacroPeriod => AnalysisFault::MacroPeriod,
            SearchFault::Buffer => AnalysisFault::Buffer,
        }
    }
}

impl From<UnknownSemantics> for AnalysisFault {
    ghost from_gives = { λ _ y. y ≡ semantics_case };

    fn from(_unknown: UnknownSemantics) -> AnalysisFault {
        Self::Semantics
    }
}
