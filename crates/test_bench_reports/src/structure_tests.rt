//! Workloads with structures: the words that they leave, and refusals.
use std::alloc::Global;
use std::test::Fail;
use test_bench_cases::cases::{Case, check, header, outcome};
use test_bench_cases::plain_sets::{holds, words_of};
use test_bench_cases::{Fault, Status};

/// What was run, and its report.
pub(crate) const REPORTS: &[Case] = &[
    (
        "words 1024 / alg OrecLazy / structs on",
        "tx 0 {ladd 5; ladd 5; lhas 5; llen}",
        "report 1 / W 1 0 0 : 1 0 1 1 / mem 128 1 / mem 129 6 / end",
    ),
    (
        "words 1024 / alg OrecLazy / structs on",
        "tx 0 {tadd 5; tadd 3; tdel 5; tmin} / tx 0 {hadd 17; hadd 1; hhas 17; hdel 2} / tx 0 {count 1 5; total}",
        "report 1 / W 1 0 0 : 1 1 1 4 / W 2 0 1 : 1 1 1 0 / W 3 0 2 : 5 5 / mem 65 5 / mem 257 2 / mem 272 18 / mem 274 2 / mem 275 1 / mem 512 2 / mem 516 4 / end",
    ),
    // the other replies: of what is empty, of what is there, and of what is taken out
    (
        "words 1024 / alg CGL / structs on",
        "tx 0 {llen; lhas 7; ldel 7; hhas 7; hdel 7; thas 7; tdel 7; tmin; total}",
        "report 1 / R 0 0 0 : 0 0 0 0 0 0 0 0 0 / end",
    ),
    (
        "words 1024 / alg Serial / structs on",
        "tx 0 {ladd 0; ldel 0; hadd 0; hadd 0; hdel 0; tadd 4294967295; thas 4294967295; tadd 4294967295; tmin; tdel 4294967295; cancel}",
        "report 1 / C 0 0 0 : 1 1 1 0 1 1 1 0 4294967296 1 1 / end",
    ),
    // a free cell of the lowest number is taken again, in the middle of the list
    (
        "words 1024 / alg OrecEager / structs on",
        "tx 0 {ladd 9; ladd 4; ladd 6; ldel 9; ladd 5; llen}",
        "report 1 / W 1 0 0 : 1 1 1 1 1 3 / mem 128 2 / mem 129 6 / mem 130 3 / mem 131 5 / mem 132 1 / mem 133 7 / end",
    ),
    // of a node with two children the least on its right takes the place: its child, and one below
    (
        "words 1024 / alg RingSW / structs on",
        "tx 0 {tadd 4; tadd 2; tadd 6; tadd 7; tdel 4; thas 4; tmin}",
        "report 1 / W 1 0 0 : 1 1 1 1 1 0 3 / mem 512 1 / mem 513 7 / mem 514 2 / mem 515 4 / mem 516 3 / mem 522 8 / end",
    ),
    (
        "words 1024 / alg OrecLazy / structs on",
        "tx 0 {tadd 4; tadd 2; tadd 7; tadd 6; tdel 4; thas 4; tmin}",
        "report 1 / W 1 0 0 : 1 1 1 1 1 0 3 / mem 512 1 / mem 513 7 / mem 514 2 / mem 515 3 / mem 516 3 / mem 519 8 / end",
    ),
    // words on both sides of the structures' are plain
    (
        "words 1025 / alg TML / structs on",
        "tx 0 {write 63 1; write 1024 2; count 3 18446744073709551615; count 3 2}",
        "report 1 / W 2 0 0 : 1 2 18446744073709551615 1 / mem 63 1 / mem 67 1 / mem 1024 2 / end",
    ),
    // with structures off the same words are plain
    (
        "words 1024 / structs off",
        "tx 0 {write 64 1; write 1023 2}",
        "report 1 / W 1 0 0 : 1 2 / mem 64 1 / mem 1023 2 / end",
    ),
];

#[test]
fn reports_structures(rt: HostRuntime) -> Result<(), Fail> {
    check(&rt, rt.alloc(), "run", Status::Ok, REPORTS)
}

/// The letter of each structure's operations, and for how many keys it has room.
const ROOMS: [(&str, u32); 3] = [("l", 32), ("h", 64), ("t", 64)];

/// The operation on each key below this one, in ascending order, a line each.
fn on_each(alloc: Global, operation: &str, keys: u32) -> Result<String, Fail> {
    let mut text = String::new(alloc);
    for key in 0..keys {
        let line = format!(in alloc; "{operation} {key}\n")?;
        text.push_str(line.as_str())?;
    }
    Ok(text)
}

/// The text of a workload that puts in a key for each cell, then one more, and then asks for all of them.
fn overfilling(alloc: Global, letter: &str, room: u32) -> Result<String, Fail> {
    let add = format!(in alloc; "{letter}add")?;
    let adds = on_each(alloc, add.as_str(), room)?;
    let has = format!(in alloc; "{letter}has")?;
    let asks = on_each(alloc, has.as_str(), room)?;
    let mut text = header(alloc, "words 1024 / alg OrecLazy / structs on")?;
    let items = format!(in alloc;
        "tx 0\n{adds}end\ntx 0\n{add} {room}\nend\ntx 0\n{asks}{has} {room}\nend\ndone\n"
    )?;
    text.push_str(items.as_str())?;
    Ok(text)
}

/// The keys below this one.
fn first_keys(count: u32) -> [bool; 64] {
    let mut keys = [false; 64];
    for there in keys.iter_mut().take(count as usize) {
        *there = true;
    }
    keys
}

#[test]
fn has_no_room_after_the_last_cell(rt: HostRuntime) -> Result<(), Fail> {
    for (set, (letter, room)) in ROOMS.iter().enumerate() {
        let text = overfilling(rt.alloc(), letter, *room)?;
        let words = ["stm_bench", "run"];
        let (status, held) = outcome(&rt, rt.alloc(), &words, text.as_str(), &[], 4096)?;
        assert_eq!(rt; status, Status::Ok);
        let ones = " 1".repeat(rt.alloc(), *room as usize)?;
        let rows = format!(in rt.alloc();
            "report 1\nW 1 0 0 :{ones}\nR 1 0 1 : 2\nR 1 0 2 :{ones} 0\nmem "
        )?;
        assert!(rt; held.starts_with(rows.as_str()), "{letter}add");
        let words = words_of(rt.alloc(), held.as_str())?;
        assert!(rt; holds(&words, set, &first_keys(*room)), "{letter}add");
    }
    Ok(())
}

#[test]
fn traces_structures(rt: HostRuntime) -> Result<(), Fail> {
    check(
        &rt,
        rt.alloc(),
        "step",
        Status::Ok,
        &[(
            "words 1024 / alg CGL / structs on",
            "tx 0 {ladd 5; tmin; count 2 3}",
            "finish / 0 begin CGL / 0 ladd 1 / 0 tmin 0 / 0 count 3 / 0 commit committed 1 / report 1 / W 1 0 0 : 1 0 3 / mem 66 3 / mem 128 1 / mem 129 6 / end",
        )],
    )
}

#[test]
fn refuses_what_is_in_a_region(rt: HostRuntime) -> Result<(), Fail> {
    let table = [
        ("structs on", "tx 0 {read 3}", 10),
        ("words 1023 / structs on", "tx 0 {read 3}", 10),
        ("words 1024 / structs on", "tx 0 {write 64 1}", 12),
        (
            "words 1024 / structs on",
            "tx 0 {read 3; move 3 1023 1}",
            13,
        ),
        ("words 1024 / structs on", "tx 0 {emit 500}", 12),
        ("structs off", "tx 0 {llen}", 12),
        ("structs off", "tx 0 {read 3; count 0 1}", 13),
        ("structs off", "tx 0 {hdel 4294967295}", 12),
    ];
    for (changes, body, line) in table {
        let said = format!(in rt.alloc(); "refused {line} 8 region")?;
        let status = Status::Refused {
            line,
            fault: Fault::Region,
        };
        check(
            &rt,
            rt.alloc(),
            "run",
            status,
            &[(changes, body, said.as_str())],
        )?;
    }
    Ok(())
}
