//! Tests of lists of events that start with an empty database.

use crate::happens::{Happens, SIGNED, events_and_replies};
use crate::prelude::*;
use club_core::Request;
use club_gate::Words;
use desk_theorem::{reply_from_nothing, run_and_leave, run_from_nothing};
use sqlite::{Files, Options};
use sqlite_disk::{Disk, Memory};

/// Three requests for the same booking have passes in three different forms. The club books and
/// charges only once.
static BOOKS: [Happens; 8] = [
    Happens::Commanded(PlainCommand::AddMember("amy", 5), OfficeReply::Done),
    Happens::Commanded(PlainCommand::Credit("amy", 10_000), OfficeReply::Done),
    Happens::Commanded(
        PlainCommand::AddFacility("court-1", Kind::Court, 4, 200, 8, 22),
        OfficeReply::Done,
    ),
    Happens::Commanded(PlainCommand::AddKey("amy-1", "amy", ROOT), SIGNED),
    Happens::Asked(AMY_V2, BOOK_7, BOOKED_7),
    Happens::Asked(AMY_V1, BOOK_7, BOOKED_7),
    Happens::Asked(AMY_JSON, BOOK_7, BOOKED_7),
    Happens::Asked(AMY_V1, ACCOUNT, ACCOUNT_AFTER),
];

#[test]
fn books_once_in_three_forms(rt: HostRuntime) {
    let (events, want) = events_and_replies(&rt, &BOOKS);
    let replies = run_from_nothing(rt.alloc(), events.as_slice()).expect(&rt, "replies");
    expect_eq(&rt, replies.as_slice(), want.as_slice());
}

fn expect_reply_after(rt: &impl Host, rows: &[Happens], want: PlainReply) {
    let words = Words {
        pass: AMY_V1.as_bytes(),
        request: Request::Account,
    };
    let (events, replies) = events_and_replies(rt, rows);
    let returned = reply_from_nothing(rt.alloc(), events.as_slice(), at(rt, NOON), &words);
    let returned = returned.expect(rt, "replies");
    expect_eq(rt, returned.replies.as_slice(), replies.as_slice());
    expect_eq(rt, returned.reply, replied(rt, want));
}

// The second request comes to an empty club, with the pass of an unknown key.
#[test]
fn answers_after_a_list(rt: HostRuntime) {
    expect_reply_after(&rt, &BOOKS[..5], ACCOUNT_AFTER);
    expect_reply_after(&rt, &[], NOT_VERIFIED);
}

fn desk_over<S: Alter + Drop>(rt: &impl Host, connection: Connection<S>) -> Desk<Store<S>> {
    let store = Store::adopt(rt.alloc(), connection).ok();
    Desk::new(rt.alloc(), store.expect(rt, "tables"))
}

/// Returns `None` if `Files::may_be_used` refuses the files.
fn files_left<D: Disk + Drop>(
    rt: &impl Host,
    files: Files<D>,
    rows: &[Happens],
) -> Option<Files<D>> {
    if !files.may_be_used() {
        return None;
    }
    let connection = Connection::open_files(rt.alloc(), files, Options::new(7)).ok();
    let desk = desk_over(rt, connection.expect(rt, "a database"));
    let (events, want) = events_and_replies(rt, rows);
    let run = run_and_leave::<D, D, _>(desk, events.as_slice());
    let (replies, store) = run.expect(rt, "replies");
    expect_eq(rt, replies.as_slice(), want.as_slice());
    Some(store.close())
}

#[test]
fn books_once_over_two_openings(rt: HostRuntime) {
    let rt = &rt;
    let files = Files {
        log: Memory::new(rt.alloc()),
        db: Memory::new(rt.alloc()),
    };
    let left = files_left(rt, files, &BOOKS[..5]).expect(rt, "files");
    files_left(rt, left, &BOOKS[5..]).expect(rt, "files");
}
