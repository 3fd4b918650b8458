use draw_core::asking::{Ask, Topic, Waits, asked, help_of};
use draw_core::draw::{draw, drawn};
use draw_core::laws::{step_is_drawn, trace_is_drawn};
use draw_core::status::Status;
use draw_core::telling::wrong_word;
use draw_core::walk::StepsError;
use draw_core::whole::read_page;
use draw_pictures::kind::Kind;
use draw_pictures::label::label;
use draw_pictures::page::Page;
use draw_pictures::part::{Callers, Lines, Part};
use draw_pictures::picture::{Leaf, picture};
use draw_pictures::row::Row;
use draw_pictures::shape::{Layer, Shape, shape_at};
use draw_pictures::shown::shown;
use draw_pictures::step::{Deed, Step};
use std::alloc::Global;
use std::test::Fail;
use stm_model::alg::Alg;
use work_io::memory::{MemSink, MemSource};
use work_script::op::Op;
use work_script::workload::Version;
use work_trace::line::Line;
use work_trace::said::Said;
use work_trace::text::trace_text;

const TRACE: &str =
    "0 begin OrecLazy\n0 read 0\n1 begin OrecLazy\n1 irrev busy 0 1\n0 read conflict record 3 8 2\n1 irrev granted\n\
     1 write 5\n1 commit committed 1\n0 close closed\n1 begin closed 258\n0 look quiet\n0 install TML\nfinish\n";

/// A workload of every kind of operation that a caller's label tells apart, in version 2.
const WORKLOAD: &str =
    "stm 2\nwords 64\ncallers 2\nrecords 8\nring 8\nreads 16\nwrites 16\nclock 0\nalg CGL\nregions 3\n\
     region counter 8 2\nregion list 10 2\nregion summap 16 2\npolicy fixed\ntx 1\nread 3\nmove 0 1 2\ntotal 0\n\
     end\nswitch 0 TML\ntx 0\nladd 1 7\nirrev\nemit 4\nmput 2 5 6\nend\ntx 0\ncancel\nadd 1 18446744073709551615\n\
     end\ndone\n";

/// The line of the trace that its workload forbids, where there is one.
fn unfit(read: Result<Page, StepsError>) -> Option<usize> {
    match read {
        Err(StepsError::Unfit(unfit)) => Some(unfit.line),
        _ => None,
    }
}

/// The fault of a trace, where it has one.
fn fault(read: Result<Page, StepsError>) -> Option<usize> {
    match read {
        Err(StepsError::Trace { line }) => Some(line),
        _ => None,
    }
}

/// All that there is.
const WHOLE: Part = Part {
    lines: None,
    callers: None,
};

/// These lines, of all callers.
fn lines(first: usize, last: usize) -> Part {
    Part {
        lines: Some(Lines { first, last }),
        callers: None,
    }
}

/// All rows of a page: those that stand above it, and its own.
fn rows_of(alloc: Global, page: &Page) -> Result<Vec<Row>, Fail> {
    let mut rows = page.above(alloc)?;
    page.put_own(&mut rows)?;
    Ok(rows)
}

/// A row of one line.
fn row(number: usize, step: Step) -> Row {
    Row {
        number,
        times: 1,
        step,
    }
}

#[test]
fn refuses_by_line(rt: HostRuntime) -> Result<(), Fail> {
    let table = [
        ("report 1\nend\n", None),
        (
            "0 begin CGL\nfinish\n0 commit readonly 0\nclock full 5\n",
            None,
        ),
        ("0 cancel irrevocable\n31 msum\n", Some(2)),
        ("", Some(1)),
        ("0 begin CGL\n", Some(2)),
        ("0 begin CGL", Some(1)),
        ("0 begin cgl\nreport 1\nend\n", Some(1)),
        ("0 begin\nreport 1\nend\n", Some(1)),
        ("32 begin CGL\nreport 1\nend\n", Some(1)),
        ("0 idle\n0 idle 0\nreport 1\nend\n", Some(2)),
        ("0 read 01\nreport 1\nend\n", Some(1)),
        ("0 read conflict filter 3\nreport 1\nend\n", Some(1)),
        ("0 irrev 1\nreport 1\nend\n", Some(1)),
        ("0 idle\nreport 1\nW 1 0 0 1\nend\n", Some(3)),
        ("0 idle\nreport 1\n", Some(3)),
        ("clock full 5\n\n", Some(2)),
    ];
    for (text, line) in &table {
        let read = read_page(rt.alloc(), text.as_bytes(), WHOLE);
        assert_eq!(rt; (text, fault(read)), (text, *line));
    }
    Ok(())
}

#[test]
fn lines_have_their_shapes(rt: HostRuntime) -> Result<(), Fail> {
    let mut text = TRACE.to_string(rt.alloc())?;
    text.push_str("report 1\nend\n")?;
    let lines = rows_of(rt.alloc(), &read_page(rt.alloc(), text.as_bytes(), WHOLE)?)?;
    let mut told = Vec::new(rt.alloc());
    for row in &lines {
        told.push(row.step.line)?;
    }
    let again = trace_text(rt.alloc(), told.as_slice())?;
    assert_eq!(rt; again.as_slice(), TRACE.as_bytes());
    let table = [
        (
            Layer::Attempts,
            0,
            Some(Shape::Attempt {
                lane: 0,
                from: 0,
                more: 4,
                kind: Kind::Conflicts,
            }),
        ),
        (
            Layer::Attempts,
            2,
            Some(Shape::Attempt {
                lane: 1,
                from: 2,
                more: 5,
                kind: Kind::Commits(1),
            }),
        ),
        (Layer::Promotions, 0, None),
        (
            Layer::Promotions,
            2,
            Some(Shape::Irrevocable {
                lane: 1,
                from: 5,
                more: 2,
            }),
        ),
        (
            Layer::Closings,
            2,
            Some(Shape::Closed {
                lane: 1,
                from: 3,
                more: 4,
            }),
        ),
        (
            Layer::Closings,
            8,
            Some(Shape::Closed {
                lane: 0,
                from: 8,
                more: 3,
            }),
        ),
        (
            Layer::Installs,
            11,
            Some(Shape::Installed {
                row: 11,
                alg: Alg::Tml,
            }),
        ),
        (Layer::Clocks, 7, Some(Shape::Clock { row: 7, time: 1 })),
        (Layer::Lanes, 9, Some(Shape::Lane { lane: 1 })),
        (Layer::Lanes, 10, None),
        (Layer::Lanes, 12, None),
    ];
    for (layer, row, shape) in table {
        if row < lines.len() {
            let found = shape_at(layer, row, lines[row], &lines[row + 1..]);
            assert!(rt; found == shape, "{row}");
        }
    }
    Ok(())
}

#[test]
fn traces_follow_their_scripts(rt: HostRuntime) -> Result<(), Fail> {
    let table = [
        ("0 begin TML\n1 begin TML\n1 read 9\n", None),
        ("0 begin TML\n0 ladd 1\n0 irrev granted\n0 emit 0\n", None),
        // an irrev that the script has not is one that the attempt was made to ask for
        (
            "0 begin TML\n0 irrev granted\n0 ladd 1\n0 irrev granted\n",
            None,
        ),
        ("0 begin TML\n0 ladd full 4\n0 begin TML\n0 ladd 1\n", None),
        ("0 ladd 1\n", Some(32)),
        ("0 begin TML\n0 begin TML\n", Some(33)),
        ("0 begin TML\n0 lhas 1\n", Some(33)),
        ("0 begin TML\n0 emit 0\n", Some(33)),
        ("0 begin TML\n0 commit readonly 0\n", Some(33)),
        ("1 begin TML\n1 cancel cancelled 0\n", Some(33)),
        ("2 begin TML\n", Some(32)),
        ("0 irrev granted\n", Some(32)),
        // a line comes at its stage: in an attempt, at its end, or between two
        ("0 commit conflict clock 1 2\n", Some(32)),
        ("1 begin TML\n1 commit conflict clock 1 2\n", Some(33)),
        ("1 begin TML\n1 commit again 0 1 2\n", Some(33)),
        ("1 begin TML\n1 idle\n", Some(33)),
        ("1 begin TML\n1 begin closed 3\n", Some(33)),
        ("1 begin TML\n1 reserve 4 4\n", Some(33)),
        ("1 irrev busy 0 1\n", Some(32)),
        ("1 irrev taken 3\n", Some(32)),
        ("1 drop\n", Some(32)),
        ("1 idle\n", Some(32)),
        (
            "1 begin TML\n1 read 9\n1 move 1\n1 total 0\n1 commit again 0 1 2\n1 commit conflict clock 1 2\n\
             1 begin closed 3\n1 begin TML\n1 irrev busy 0 1\n1 irrev taken 3\n1 begin TML\n1 drop\n",
            None,
        ),
        (
            "1 begin TML\n1 read 9\n1 move 1\n1 total 0\n1 commit committed 1\n1 begin TML\n",
            Some(37),
        ),
    ];
    for (trace, line) in &table {
        let mut text = WORKLOAD.to_string(rt.alloc())?;
        text.push_str(trace)?;
        text.push_str("report 1\nend\n")?;
        assert_eq!(rt;
            (trace, unfit(read_page(rt.alloc(), text.as_bytes(), WHOLE))),
            (trace, *line)
        );
    }
    Ok(())
}

/// A line that may not come is told by where its caller stands.
#[test]
fn misfits_tell_where_a_caller_stands(rt: HostRuntime) -> Result<(), Fail> {
    let alloc = rt.alloc();
    let table = [
        ("2 begin TML\n", "the workload has 2 callers"),
        (
            "0 ladd 1\n",
            "caller 0 is in no attempt, and has a transaction left",
        ),
        (
            "1 begin TML\n1 idle\n",
            "caller 1 is in an attempt, whose script has read 3 next",
        ),
        (
            "1 begin TML\n1 read 9\n1 move 1\n1 total 0\n1 idle\n",
            "caller 1 is in an attempt, whose script is done",
        ),
        (
            "1 begin TML\n1 read 9\n1 move 1\n1 total 0\n1 commit committed 1\n1 begin TML\n",
            "caller 1 is in no attempt, and has no transaction left",
        ),
        (
            "0 close closed\n0 begin TML\n",
            "caller 0 has closed the gate; here stands `0 look quiet`",
        ),
    ];
    for (trace, wanted) in &table {
        let mut text = WORKLOAD.to_string(alloc)?;
        text.push_str(trace)?;
        text.push_str("report 1\nend\n")?;
        let said = drawn(alloc, text.as_bytes(), WHOLE)?;
        let why = said.why.unwrap_or(String::new(alloc));
        assert!(rt; why.contains(wanted), "{why}");
    }
    Ok(())
}

/// A line of a trace alone comes in an attempt, between two, or while its caller has closed the gate.
#[test]
fn lines_follow_those_of_their_callers(rt: HostRuntime) -> Result<(), Fail> {
    let alloc = rt.alloc();
    let table = [
        (
            "0 begin TML\n1 begin TML\n1 read 1\n1 commit committed 1\n0 drop\n0 begin closed 3\n0 reserve 4 4\n\
             0 close taken 3\n0 close closed\n0 look busy 1 1\n0 look quiet\n0 install CGL\n0 close closed\n0 reopen\n\
             0 idle\n",
            0,
            "",
        ),
        (
            "0 begin TML\n0 commit committed 1\n0 commit committed 2\n",
            3,
            "line 3, `0 commit committed 2`: caller 0 is in no attempt; here stands `0 begin ALG`",
        ),
        ("0 commit conflict clock 1 2\n", 1, "is in no attempt"),
        (
            "7 begin TML\n7 begin TML\n",
            2,
            "caller 7 is in an attempt; here stands `7 NAME REPLY`",
        ),
        ("0 begin TML\n0 idle\n", 2, "is in an attempt"),
        ("0 install TML\n", 1, "is in no attempt"),
        (
            "0 close closed\n0 install TML\n",
            2,
            "caller 0 has closed the gate; here stands `0 look quiet`",
        ),
        (
            "0 close closed\n0 look quiet\n0 look quiet\n",
            3,
            "has closed the gate, and no other is in an attempt; here stands `0 install ALG`",
        ),
    ];
    for (trace, line, wanted) in &table {
        let mut text = trace.to_string(alloc)?;
        text.push_str("report 1\nend\n")?;
        let said = drawn(alloc, text.as_bytes(), WHOLE)?;
        let status = if *line == 0 {
            Status::Ok
        } else {
            Status::Refused { line: *line }
        };
        assert_eq!(rt; (trace, said.status), (trace, status));
        let why = said.why.unwrap_or(String::new(alloc));
        assert!(rt; why.contains(wanted), "{why}");
    }
    Ok(())
}

#[test]
fn labels_have_the_operation_and_the_reply(rt: HostRuntime) -> Result<(), Fail> {
    let mut text = WORKLOAD.to_string(rt.alloc())?;
    text.push_str(
        "1 begin TML\n1 read 9\n1 move 1\n1 total conflict clock 1 2\n0 begin TML\n0 ladd 1\n0 irrev granted\n\
         0 emit 8\n0 mput 0\n0 commit committed 2\n0 begin TML\n0 cancel irrevocable\n0 add full 3\nfinish\n\
         clock full 9\n",
    )?;
    let rows = rows_of(rt.alloc(), &read_page(rt.alloc(), text.as_bytes(), WHOLE)?)?;
    let told = [
        " begin TML",
        " read 3 → 9",
        " move 0 1 2 → 1",
        " total 0 conflict clock 1 2",
        " begin TML",
        " ladd 1 7 → 1",
        " irrev granted",
        " emit 4 → 8",
        " mput 2 5 6 → 0",
        " commit committed 2",
        " begin TML",
        " cancel irrevocable",
        " add 1 18446744073709551615 full 3",
        " finish",
    ];
    assert_eq!(rt; rows.len(), told.len());
    for (row, words) in rows.iter().zip(&told) {
        let label = label(rt.alloc(), *row)?;
        assert_eq!(rt; label.as_str(), *words);
    }
    // version 1 has no number of a region
    let deed = Deed {
        op: Op::ListInsert(1, 7),
        version: Version::One,
    };
    let line = Line::Of {
        caller: 0,
        said: Said::Reply(Op::ListInsert(0, 0), 1),
    };
    let step = Step {
        line,
        deed: Some(deed),
    };
    let label = label(rt.alloc(), row(1, step))?;
    assert_eq!(rt; label.as_str(), " ladd 7 → 1");
    Ok(())
}

#[test]
fn draws_from_a_source_to_a_sink(rt: HostRuntime) -> Result<(), Fail> {
    trace_is_drawn();
    step_is_drawn();
    let alloc = rt.alloc();
    let mut text = TRACE.to_string(alloc)?;
    text.push_str("report 1\nend\n")?;
    let rows = rows_of(alloc, &read_page(alloc, text.as_bytes(), WHOLE)?)?;
    let leaf = Leaf {
        lines: None,
        callers: None,
        above: 0,
    };
    let expected = picture(alloc, leaf, rows.as_slice())?;
    let mut source = MemSource::new(text.into_bytes(), Vec::new(alloc));
    let mut sink = MemSink::new(alloc, 65536, Vec::new(alloc))?;
    assert_eq!(rt;
        draw(alloc, &["stm_draw"], &mut source, &mut sink, &mut None),
        Status::Ok
    );
    assert_eq!(rt; sink.held(), expected.as_slice());
    Ok(())
}

#[test]
fn each_end_has_its_status(rt: HostRuntime) -> Result<(), Fail> {
    let alloc = rt.alloc();
    let alone: &[&str] = &["stm_draw"];
    let table = [
        (
            &["stm_draw", "--pag"] as &[&str],
            "",
            false,
            false,
            Status::Usage,
            "usage: stm_draw [--lines A..B] [--callers N,N..] [FILE [TRACE]]\n",
        ),
        (
            &["stm_draw", "--version"],
            "",
            false,
            false,
            Status::Help,
            "stm_draw 1.0.0\n",
        ),
        (
            alone,
            "0 idel\n",
            false,
            false,
            Status::Refused { line: 1 },
            "refused 1\n",
        ),
        (
            &["stm_draw", "--lines", "2..9"],
            "0 idle\nreport 1\nend\n",
            false,
            false,
            Status::NoPicture { boxes: 0 },
            "boxes 0\n",
        ),
        (
            alone,
            "report 1\nend\n",
            true,
            false,
            Status::ReadFault,
            "read fault\n",
        ),
        (
            alone,
            "report 1\nend\n",
            false,
            true,
            Status::WriteFault,
            "",
        ),
        (
            alone,
            "stm 3\n0 idle\n",
            false,
            false,
            Status::Refused { line: 1 },
            "refused 1\n",
        ),
    ];
    for (words, text, unread, unwritten, status, said) in &table {
        let mut reads = Vec::new(alloc);
        if *unread {
            reads.push(0)?;
        }
        let mut writes = Vec::new(alloc);
        if *unwritten {
            writes.push(0)?;
        }
        let mut source = MemSource::new(text.as_bytes().to_vec(alloc)?, reads);
        let mut sink = MemSink::new(alloc, 65536, writes)?;
        assert_eq!(rt;
            draw(alloc, words, &mut source, &mut sink, &mut None),
            *status
        );
        assert_eq!(rt; (said, sink.held()), (said, said.as_bytes()));
    }
    Ok(())
}

/// Idle turns of one caller that follow each other are one row.
#[test]
fn idle_turns_are_one_row(rt: HostRuntime) -> Result<(), Fail> {
    let text = "0 idle\n0 idle\n1 idle\n0 idle\n0 idle\n0 idle\nfinish\nreport 1\nend\n";
    let rows = rows_of(rt.alloc(), &read_page(rt.alloc(), text.as_bytes(), WHOLE)?)?;
    let told = [
        (1, " idle 2 times"),
        (3, " idle"),
        (4, " idle 3 times"),
        (7, " finish"),
    ];
    assert_eq!(rt; rows.len(), told.len());
    for (row, wanted) in rows.iter().zip(&told) {
        let (number, words) = *wanted;
        let label = label(rt.alloc(), *row)?;
        assert_eq!(rt; (row.number, label.as_str()), (number, words));
    }
    Ok(())
}

/// A part has what still stands above it: of a caller the begin of its open attempt and where it asks to be alone, a
/// gate that is closed, and the last commit of all.
#[test]
fn parts_begin_with_what_stands(rt: HostRuntime) -> Result<(), Fail> {
    let text =
        "0 begin TML\n0 read 1\n0 commit committed 1\n1 begin TML\n1 read 2\n0 begin TML\n0 irrev busy 1 1\n\
                2 close closed\n0 irrev granted\n1 read conflict clock 1 2\n0 read 3\n2 look busy 0 1\nfinish\n\
                report 1\nend\n";
    let alone = Some(Callers::none().with(1).with(2));
    let table = [
        (1, 13, None, "1 2 3 4 5 6 7 8 9 10 11 12 13 "),
        (3, 6, None, "1 3 4 5 6 "),
        (6, 13, None, "3 4 6 7 8 9 10 11 12 13 "),
        (10, 11, None, "3 6 9 4 8 10 11 "),
        (12, 12, None, "3 6 9 8 12 "),
        (14, 20, None, "3 6 9 8 "),
        // the last commit is shown, whosever it is
        (1, 13, alone, "4 5 8 10 12 13 "),
        (9, 12, alone, "3 4 8 10 12 "),
    ];
    for (first, last, callers, numbers) in table {
        let part = Part {
            callers,
            ..lines(first, last)
        };
        let rows = rows_of(rt.alloc(), &read_page(rt.alloc(), text.as_bytes(), part)?)?;
        let mut told = String::new(rt.alloc());
        for row in &rows {
            let number = row.number;
            write!(told, "{number} ")?;
        }
        assert_eq!(rt; (first, told.as_str()), (first, numbers));
    }
    let drawn = drawn(
        rt.alloc(),
        text.as_bytes(),
        Part {
            lines: None,
            callers: alone,
        },
    )?;
    let text = String::from_utf8(drawn.text)?;
    // the first lane is caller 1's
    for (words, is_there) in [
        ("<title>A trace</title>", true),
        (
            "<text class='head words' x='246' y='28'>caller 1</text>",
            true,
        ),
        (
            "<text class='head words' x='462' y='28'>caller 2</text>",
            true,
        ),
        ("caller 0", false),
    ] {
        assert_eq!(rt; (words, text.contains(words)), (words, is_there));
    }
    Ok(())
}

/// What a box shows of its words.
#[test]
fn long_numbers_are_shortened(rt: HostRuntime) -> Result<(), Fail> {
    let table = [
        (" read 3 → 12345678", " read 3 → 12345678"),
        (
            " add 1 18446744073709551615 → 123456789",
            " add 1 184..615 → 123..789",
        ),
        (
            " move 1048575 1048575 18446744073709551615 → 1",
            " move 1048575 1048575 184..615 → 1",
        ),
        (
            " write 5 18446744073709551615 conflict record 4095 18446744073709551615 7",
            " write 5 184..615 conflict record 40..",
        ),
    ];
    for (words, wanted) in table {
        let short = shown(rt.alloc(), words)?;
        assert_eq!(rt; short.as_str(), wanted);
    }
    Ok(())
}

/// A trace of an attempt that reads 1,999 times, and of what follows.
fn long_trace(alloc: Global, rest: &str) -> Result<String, Fail> {
    let mut text = String::new(alloc);
    text.push_str("0 begin TML\n")?;
    for _ in 0..1999 {
        text.push_str("0 read 18446744073709551615\n")?;
    }
    text.push_str(rest)?;
    Ok(text)
}

/// How many boxes a picture has, how often it names caller 0, and whether a line lies under rows of before its part.
fn counted(picture: &str) -> (usize, usize, bool) {
    (
        picture.matches("<rect class='box ").count(),
        picture.matches(">caller 0</text>").count(),
        picture.contains("class='turn "),
    )
}

#[test]
fn boxes_are_drawn_up_to_2000(rt: HostRuntime) -> Result<(), Fail> {
    let text = long_trace(rt.alloc(), "report 1\nend\n")?;
    let said = drawn(rt.alloc(), text.as_bytes(), WHOLE)?;
    let picture = String::from_utf8(said.text)?;
    assert_eq!(rt;
        (said.status, counted(picture.as_str())),
        (Status::Ok, (2001, 50, false))
    );
    Ok(())
}

/// The last line of a trace that has more.
const ONE_MORE: &str = "1 begin TML\nreport 1\nend\n";

#[test]
fn more_boxes_want_lines(rt: HostRuntime) -> Result<(), Fail> {
    let text = long_trace(rt.alloc(), ONE_MORE)?;
    let said = drawn(rt.alloc(), text.as_bytes(), WHOLE)?;
    assert_eq!(rt;
        (said.status, said.text.as_slice()),
        (Status::NoPicture { boxes: 2001 }, "boxes 2001\n".as_bytes())
    );
    let why = said.why.unwrap_or(String::new(rt.alloc()));
    assert!(rt;
        why.contains("here stands `--lines A..B`, of lines 1 to 2001"),
        "{why}"
    );
    Ok(())
}

#[test]
fn named_lines_or_callers_are_drawn(rt: HostRuntime) -> Result<(), Fail> {
    let text = long_trace(rt.alloc(), ONE_MORE)?;
    let second = Part {
        lines: None,
        callers: Some(Callers::none().with(1)),
    };
    for part in [lines(1, 3000), second] {
        let said = drawn(rt.alloc(), text.as_bytes(), part)?;
        assert_eq!(rt; said.status, Status::Ok);
    }
    Ok(())
}

#[test]
fn the_last_lines_lie_under_what_stands(rt: HostRuntime) -> Result<(), Fail> {
    let text = long_trace(rt.alloc(), ONE_MORE)?;
    let said = drawn(rt.alloc(), text.as_bytes(), lines(1500, 2001))?;
    let picture = String::from_utf8(said.text)?;
    let (boxes, _, is_under) = counted(picture.as_str());
    assert_eq!(rt; (said.status, boxes, is_under), (Status::Ok, 504, true));
    for words in [
        "<title>Lines 1500 to 2001 of a trace</title>",
        "<title> read 18446744073709551615</title> read 184..615</text>",
        "> begin TML</text>",
    ] {
        assert_eq!(rt; (words, picture.contains(words)), (words, true));
    }
    Ok(())
}

#[test]
fn words_ask_for_a_part_and_files(rt: HostRuntime) -> Result<(), Fail> {
    let words = [
        "stm_draw",
        "a.stm",
        "--lines",
        "7..90",
        "--callers",
        "0,5,31,5",
        "a.trace",
    ];
    assert!(rt;
        matches!(
            asked(&words),
            Some(Ask {
                part: Part {
                    lines: Some(Lines { first: 7, last: 90 }),
                    callers: Some(callers),
                },
                first: Some("a.stm"),
                second: Some("a.trace"),
                waits: Waits::ForNone,
            }) if callers.below(32) == 3 && callers.has(0) && callers.has(5) && callers.has(31)
        )
    );
    assert!(rt; matches!(help_of(&["stm_draw", "-h"]), Some(Topic::All)));
    let table = [
        (
            &["stm_draw", "--lines", "0..3"] as &[&str],
            "`0..3` is no value of `--lines`; here stands A..B, A from 1 and B from A on",
        ),
        (
            &["stm_draw", "--lines", "3..2"],
            "`3..2` is no value of `--lines`; here stands A..B, A from 1 and B from A on",
        ),
        (
            &["stm_draw", "--lines", "3.4"],
            "`3.4` is no value of `--lines`; here stands A..B, A from 1 and B from A on",
        ),
        (
            &["stm_draw", "--lines", "3..4.5"],
            "`3..4.5` is no value of `--lines`; here stands A..B, A from 1 and B from A on",
        ),
        (
            &["stm_draw", "--lines", "3"],
            "`3` is no value of `--lines`; here stands A..B, A from 1 and B from A on",
        ),
        (
            &["stm_draw", "--lines", "1..18446744073709551616"],
            "`1..18446744073709551616` is no value of `--lines`; here stands A..B, A from 1 and B from A on",
        ),
        (
            &["stm_draw", "--callers", "32"],
            "`32` is no value of `--callers`; here stands N,N.., each N a caller from 0 to 31",
        ),
        (
            &["stm_draw", "--callers", "0,,3"],
            "`0,,3` is no value of `--callers`; here stands N,N.., each N a caller from 0 to 31",
        ),
        (
            &["stm_draw", "--callers", ""],
            "`` is no value of `--callers`; here stands N,N.., each N a caller from 0 to 31",
        ),
        (
            &["stm_draw", "--lines"],
            "no value follows `--lines`; here stands A..B",
        ),
        (
            &["stm_draw", "--callers", "1", "--callers", "2"],
            "`--callers` stands twice; here stands each option once at most",
        ),
        (
            &["stm_draw", "a", "--help"],
            "`--help` isn't alone; here stands no other word beside it",
        ),
        (
            &["stm_draw", "--versoin"],
            "`--versoin` is no option; here stands `--version`, ",
        ),
        (
            &["stm_draw", "a", "b", "c"],
            "`c` is a word too many; here stand two files' names at most",
        ),
    ];
    for (words, wanted) in &table {
        assert!(rt; asked(words).is_none());
        let said = wrong_word(rt.alloc(), words)?;
        assert!(rt; said.starts_with(wanted), "{said}");
    }
    Ok(())
}
