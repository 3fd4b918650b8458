use std::test::Fail;
use stm_answers::answers::{Begin, Cancel, CloseGate, Commit, Look};
use stm_model::alg::Alg;
use stm_model::stop::{Cause, Stop};
use work_script::op::Op;
use work_trace::laws::{asks_by_policy, items_have_scripts, one_writer_fits, tells_each_once};
use work_trace::line::Line;
use work_trace::said::Said;
use work_trace::text::trace_text;

/// Lines, and their texts.
const TEXTS: &[(Line, &str)] = &[
    (
        Line::Of {
            caller: 0,
            said: Said::TryBegin(Begin::Begun(Alg::Cgl)),
        },
        "0 begin CGL\n",
    ),
    (
        Line::Of {
            caller: 1,
            said: Said::TryBegin(Begin::Closed { gate: 258 }),
        },
        "1 begin closed 258\n",
    ),
    (
        Line::Of {
            caller: 2,
            said: Said::TryBegin(Begin::Held { word: 1 }),
        },
        "2 begin held 1\n",
    ),
    (
        Line::Of {
            caller: 0,
            said: Said::TryBegin(Begin::ClockFull {
                clock: 4_611_686_018_427_387_904,
            }),
        },
        "0 begin clockfull 4611686018427387904\n",
    ),
    (
        Line::Of {
            caller: 0,
            said: Said::Reply(Op::Read(7), 5),
        },
        "0 read 5\n",
    ),
    (
        Line::Of {
            caller: 0,
            said: Said::Reply(Op::Write(7, 6), 6),
        },
        "0 write 6\n",
    ),
    (
        Line::Of {
            caller: 31,
            said: Said::Reply(Op::Add(7, 1), 18_446_744_073_709_551_615),
        },
        "31 add 18446744073709551615\n",
    ),
    (
        Line::Of {
            caller: 0,
            said: Said::Stopped(
                Op::Write(7, 6),
                Stop::Conflict(Cause::Clock { had: 2, now: 4 }),
            ),
        },
        "0 write conflict clock 2 4\n",
    ),
    (
        Line::Of {
            caller: 0,
            said: Said::Stopped(
                Op::Read(7),
                Stop::Conflict(Cause::Record {
                    index: 3,
                    word: 8,
                    start: 2,
                }),
            ),
        },
        "0 read conflict record 3 8 2\n",
    ),
    (
        Line::Of {
            caller: 0,
            said: Said::Stopped(
                Op::Add(7, 1),
                Stop::Conflict(Cause::Moved {
                    index: 1,
                    before: 4,
                    after: 3,
                }),
            ),
        },
        "0 add conflict moved 1 4 3\n",
    ),
    (
        Line::Of {
            caller: 0,
            said: Said::Stopped(Op::Add(7, 1), Stop::Full { limit: 256 }),
        },
        "0 add full 256\n",
    ),
    (
        Line::Of {
            caller: 0,
            said: Said::Stopped(Op::Write(7, 1), Stop::ClockFull { clock: 9 }),
        },
        "0 write clockfull 9\n",
    ),
    (
        Line::Of {
            caller: 1,
            said: Said::TryCancel(Cancel::Cancelled { time: 2 }),
        },
        "1 cancel cancelled 2\n",
    ),
    (
        Line::Of {
            caller: 1,
            said: Said::TryCancel(Cancel::Irrevocable),
        },
        "1 cancel irrevocable\n",
    ),
    (
        Line::Of {
            caller: 0,
            said: Said::TryCommit(Commit::Committed { time: 1 }),
        },
        "0 commit committed 1\n",
    ),
    (
        Line::Of {
            caller: 0,
            said: Said::TryCommit(Commit::ReadOnly { time: 0 }),
        },
        "0 commit readonly 0\n",
    ),
    (
        Line::Of {
            caller: 0,
            said: Said::TryCommit(Commit::Again {
                word: 0,
                had: 4,
                now: 5,
            }),
        },
        "0 commit again 0 4 5\n",
    ),
    (
        Line::Of {
            caller: 0,
            said: Said::TryCommit(Commit::Conflict(Cause::Filter { time: 3, bits: 64 })),
        },
        "0 commit conflict filter 3 64\n",
    ),
    (
        Line::Of {
            caller: 0,
            said: Said::TryCommit(Commit::Conflict(Cause::Overrun { start: 1, clock: 9 })),
        },
        "0 commit conflict overrun 1 9\n",
    ),
    (
        Line::Of {
            caller: 0,
            said: Said::TryCommit(Commit::ClockFull { clock: 7 }),
        },
        "0 commit clockfull 7\n",
    ),
    (
        Line::Of {
            caller: 3,
            said: Said::TryClose(CloseGate::Closed),
        },
        "3 close closed\n",
    ),
    (
        Line::Of {
            caller: 3,
            said: Said::TryClose(CloseGate::Taken { gate: 513 }),
        },
        "3 close taken 513\n",
    ),
    (
        Line::Of {
            caller: 3,
            said: Said::Looked(Look::Quiet),
        },
        "3 look quiet\n",
    ),
    (
        Line::Of {
            caller: 3,
            said: Said::Looked(Look::Busy {
                caller: 2,
                status: 1,
            }),
        },
        "3 look busy 2 1\n",
    ),
    (
        Line::Of {
            caller: 3,
            said: Said::Installed(Alg::RingSw),
        },
        "3 install RingSW\n",
    ),
    (
        Line::Of {
            caller: 0,
            said: Said::Installed(Alg::Tml),
        },
        "0 install TML\n",
    ),
    (
        Line::Of {
            caller: 0,
            said: Said::Installed(Alg::OrecLazy),
        },
        "0 install OrecLazy\n",
    ),
    (
        Line::Of {
            caller: 0,
            said: Said::Installed(Alg::OrecEager),
        },
        "0 install OrecEager\n",
    ),
    (
        Line::Of {
            caller: 0,
            said: Said::Installed(Alg::Serial),
        },
        "0 install Serial\n",
    ),
    (
        Line::Of {
            caller: 1,
            said: Said::Idle,
        },
        "1 idle\n",
    ),
    (
        Line::Of {
            caller: 1,
            said: Said::Dropped,
        },
        "1 drop\n",
    ),
    (
        Line::Of {
            caller: 1,
            said: Said::Reopened,
        },
        "1 reopen\n",
    ),
    (Line::Finish, "finish\n"),
];

#[test]
fn each_line_has_its_text(rt: HostRuntime) -> Result<(), Fail> {
    for (line, text) in TEXTS {
        let bytes = trace_text(rt.alloc(), &[*line])?;
        assert_eq!(rt; bytes.as_slice(), text.as_bytes(), "{text}");
    }
    Ok(())
}

const TRACE: &[Line] = &[
    Line::Of {
        caller: 0,
        said: Said::TryBegin(Begin::Begun(Alg::Cgl)),
    },
    Line::Of {
        caller: 1,
        said: Said::Idle,
    },
    Line::Finish,
    Line::Of {
        caller: 0,
        said: Said::TryCommit(Commit::ReadOnly { time: 0 }),
    },
];

#[test]
fn lines_stand_in_order(rt: HostRuntime) -> Result<(), Fail> {
    let bytes = trace_text(rt.alloc(), TRACE)?;
    let text = "0 begin CGL\n1 idle\nfinish\n0 commit readonly 0\n";
    assert_eq!(rt; bytes.as_slice(), text.as_bytes());
    Ok(())
}

#[test]
fn laws_are_called() {
    items_have_scripts();
    tells_each_once();
    one_writer_fits();
    asks_by_policy();
}
