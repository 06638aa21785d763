// Counting bytes that are no journal, with blocks that were worked out from the rules and not by this project's code.
use crate::Report;
use record::Edition;

// Entries in no order: code 10 with the word 0x1234 at bit 150, a filler of 1984 at bit 100, the same with one place changed at bit
// 100 again; and three bytes that are no entry.
const BYTES: [u8; 51] = [
    0, 0, 0, 0, 0, 0, 0, 150, 0x00, 0x03, 0x40, 0x00, 0x02, 0x46, 0x99, 0xB1, //
    0, 0, 0, 0, 0, 0, 0, 100, 0x00, 0x02, 0x10, 0x00, 0x00, 0x00, 0x0A, 0x1F, //
    0, 0, 0, 0, 0, 0, 0, 100, 0x00, 0x02, 0x10, 0x00, 0x00, 0x00, 0x0A, 0x1E, //
    0, 0, 0,
];

// Blocks, good ones, fillers, and the good ones of codes 0 and 10, when the bytes were counted into a report whose good blocks were
// all of code 0.
fn totals_after(blocks: u64, good: u64, fillers: u64) -> [u64; 5] {
    let mut codes = [0; 16];
    codes[0] = good;
    let mut report = Report {
        blocks,
        good,
        fillers,
        codes,
    };
    report.count_all(Edition::Of1984, &BYTES);
    [
        report.blocks,
        report.good,
        report.fillers,
        report.codes[0],
        report.codes[10],
    ]
}

#[test]
fn entries_in_any_order_come_to_a_report(rt: HostRuntime) {
    for (blocks, good, fillers) in [(0, 0, 0), (7, 5, 4), (0xFFFF_FFFD, 0xFFFF_FFFD, 0)] {
        let totals = [blocks + 3, good + 2, fillers + 1, good + 1, 1];
        assert_eq!(rt; totals_after(blocks, good, fillers), totals);
    }
}

#[test]
fn a_report_without_room_stays(rt: HostRuntime) {
    for (blocks, good, fillers) in [(0xFFFF_FFFE, 9, 8), (4, 5, 0), (5, 4, 5)] {
        let totals = [blocks, good, fillers, good, 0];
        assert_eq!(rt; totals_after(blocks, good, fillers), totals);
    }
}
