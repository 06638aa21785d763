// The journal's calls as C sees them: flat answers, numbered as documents 01 and 02 number things.
#![tactic(auto)]

ghost use Rattle.std.specs.Prelude.{◌≡◌};
ghost use Rattle.face_journal.specs.Face.{compacted_face, share_face};
ghost use Rattle.face_journal.specs.Under.{add_under};
ghost use Rattle.journal.specs.Compaction.{compact_of, compacted_of, refusal_in};
ghost use Rattle.journal.specs.Salvage.{salvaged_of};
ghost use Rattle.reception.specs.Adding.{answered, join_of, left_by};
ghost use Rattle.reception.specs.Share.{share_of};

use journal::Salvaged;
use reception::{Report, Share};
use record::Edition;
use refusal::Refusal;

// What compaction leaves: the refusal's number, 0 for none, then the new length, 0 where refused.
#[repr(C)]
#[derive(Clone, Copy)]
pub struct CompactedAnswer {
    pub refusal: u8,
    pub length: u64,
}

// Good blocks of a thousand: the refusal's number, 0 for none, then what the division gives and what it leaves, zeros where refused.
#[repr(C)]
#[derive(Clone, Copy)]
pub struct ShareAnswer {
    pub refusal: u8,
    pub quotient: u64,
    pub remainder: u64,
}

impl From<Result<u64, Refusal>> for CompactedAnswer {
    ghost from_gives = { λ answer flat. flat ≡ compacted_face answer };

    fn from(answer: Result<u64, Refusal>) -> CompactedAnswer {
        match answer {
            Ok(length) => CompactedAnswer { refusal: 0, length },
            Err(refusal) => CompactedAnswer {
                refusal: u8::from(refusal),
                length: 0,
            },
        }
    }
}

impl From<Result<Share, Refusal>> for ShareAnswer {
    ghost from_gives = { λ answer flat. flat ≡ share_face answer };

    fn from(answer: Result<Share, Refusal>) -> ShareAnswer {
        match answer {
            Ok(share) => ShareAnswer {
                refusal: 0,
                quotient: share.quotient,
                remainder: share.remainder,
            },
            Err(why) => ShareAnswer {
                refusal: u8::from(why),
                quotient: 0,
                remainder: 0,
            },
        }
    }
}

#[unsafe(no_mangle)]
pub extern "C" fn lw_compact(journal: &mut [u8]) -> CompactedAnswer
    ensures told { result ≡ compacted_face (compact_of journal.old) }
    ensures left { journal.new ≡ compacted_of journal.old }
{
    CompactedAnswer::from(journal::compact(journal))
}

#[unsafe(no_mangle)]
pub extern "C" fn lw_salvage(journal: &[u8]) -> Salvaged
    ensures { result ≡ salvaged_of journal.now }
{
    journal::salvage(journal)
}

// ---- the report

// 0 where it was counted. Three faces have such a line each: a shared one would be public in refusal, under one more definition.
fn refusal_of(answer: Result<(), Refusal>) -> u8
    ensures { result ≡ refusal_in answer }
{
    answer.err().map_or(0, u8::from)
}

// A journal comes to the report, where the edition is given by its number.
fn add_under(edition: u16, report: &mut Report, journal: &[u8]) -> Result<(), Refusal>
    ensures told { result ≡ answered (add_under edition report.old journal.now) }
    ensures left { report.new ≡ left_by report.old (add_under edition report.old journal.now) }
{
    let edition = Edition::try_from(edition)?;
    report.add(edition, journal)
}

#[unsafe(no_mangle)]
pub extern "C" fn lw_report_add(edition: u16, report: &mut Report, journal: &[u8]) -> u8
    ensures told { result ≡ refusal_in (add_under edition report.old journal.now) }
    ensures left { report.new ≡ left_by report.old (add_under edition report.old journal.now) }
{
    refusal_of(add_under(edition, report, journal))
}

#[unsafe(no_mangle)]
pub extern "C" fn lw_report_join(report: &mut Report, other: Report) -> u8
    ensures told { result ≡ refusal_in (join_of report.old other) }
    ensures left { report.new ≡ left_by report.old (join_of report.old other) }
{
    refusal_of(report.join(&other))
}

#[unsafe(no_mangle)]
pub extern "C" fn lw_per_thousand(report: Report) -> ShareAnswer
    ensures { result ≡ share_face (share_of report) }
{
    ShareAnswer::from(report.per_thousand())
}
