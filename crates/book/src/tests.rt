// The limits of tasks and routes, call by call.
use crate::{Book, Fault, Open};
use platform::{Metronome, Record};

fn record(period: u32, offset: u32, response: u32) -> Record {
    Record {
        period,
        offset,
        response,
        rank: 0,
    }
}

// The number and place of a call's refusal; nothing where it is accepted.
fn refusal<T: Drop, F: Fault>(answer: Result<T, F>) -> Option<(u8, usize)> {
    answer.err().map(|fault| (fault.number(), fault.place()))
}

// What a query with room for so many instances is refused by.
fn query(book: &Book<Metronome<'_>, Open>, semantics: u8, room: usize) -> Option<(u8, usize)> {
    let mut buffer = [0; 16];
    refusal(book.query(semantics, &mut buffer[..room.min(16)]))
}

#[test]
fn refusals_of_a_query(rt: HostRuntime) {
    let mut book = Book::new(Metronome::new(&[]));
    assert_eq!(rt; query(&book, 4, 0), Some((10, 0)));
    assert_eq!(rt; query(&book, 255, 16), Some((10, 0)));
    assert_eq!(rt; query(&book, 0, 16), Some((11, 0)));
    assert_eq!(rt; refusal(book.enter(1, record(1_000_000, 0, 1))), None);
    assert_eq!(rt; refusal(book.enter(2, record(999_999, 0, 1))), None);
    assert_eq!(rt; refusal(book.route(&[1, 2])), None);
    assert_eq!(rt; query(&book, 3, 0), Some((12, 0)));
    assert_eq!(rt; refusal(book.route(&[2, 2])), None);
    assert_eq!(rt; query(&book, 3, 1), Some((13, 0)));
    assert_eq!(rt; query(&book, 3, 2), None);
}

#[test]
fn limits_of_a_record(rt: HostRuntime) {
    let mut book = Book::new(Metronome::new(&[]));
    assert_eq!(rt; refusal(book.enter(0, record(100, 99, 100))), None);
    assert_eq!(rt; refusal(book.enter(127, record(1_000_000, 0, 1))), None);
    assert_eq!(rt; refusal(book.enter(128, record(100, 0, 1))), Some((1, 0)));
    assert_eq!(rt; refusal(book.enter(0, record(99, 0, 1))), Some((2, 0)));
    assert_eq!(rt;
        refusal(book.enter(0, record(1_000_001, 0, 1))),
        Some((2, 0))
    );
    assert_eq!(rt; refusal(book.enter(0, record(100, 100, 1))), Some((3, 0)));
    assert_eq!(rt; refusal(book.enter(0, record(100, 0, 0))), Some((4, 0)));
    assert_eq!(rt; refusal(book.enter(0, record(100, 0, 101))), Some((4, 0)));
    assert_eq!(rt;
        refusal(book.enter(0, record(u32::MAX, u32::MAX, u32::MAX))),
        Some((2, 0))
    );
}

#[test]
fn room_for_32_tasks(rt: HostRuntime) {
    let mut book = Book::new(Metronome::new(&[]));
    for number in 0..32u8 {
        assert_eq!(rt; refusal(book.enter(number, record(100, 0, 1))), None);
    }
    assert_eq!(rt; refusal(book.enter(32, record(100, 0, 1))), Some((5, 0)));
    assert_eq!(rt; refusal(book.enter(31, record(200, 0, 1))), None);
    assert_eq!(rt; refusal(book.retire(7)), None);
    assert_eq!(rt; refusal(book.enter(32, record(100, 0, 1))), None);
    assert_eq!(rt; refusal(book.enter(7, record(100, 0, 1))), Some((5, 0)));
}

#[test]
fn refusals_of_a_route(rt: HostRuntime) {
    let stages = [record(20_000, 0, 5000), record(99, 0, 1)];
    let mut book = Book::new(Metronome::new(&stages));
    assert_eq!(rt; refusal(book.enter(1, record(100, 0, 1))), None);
    assert_eq!(rt; refusal(book.route(&[])), Some((8, 0)));
    assert_eq!(rt; refusal(book.route(&[1; 17])), Some((8, 0)));
    assert_eq!(rt; refusal(book.route(&[1; 1000])), Some((8, 0)));
    assert_eq!(rt; refusal(book.route(&[1; 16])), None);
    assert_eq!(rt; refusal(book.route(&[2, 1, 1])), Some((9, 0)));
    assert_eq!(rt; refusal(book.route(&[1, 128, 129])), Some((9, 2)));
    assert_eq!(rt; refusal(book.route(&[1, 255, 129])), Some((9, 1)));
    assert_eq!(rt; book.route_len(), 16);
    assert_eq!(rt; refusal(book.retire(1)), Some((7, 0)));
    assert_eq!(rt; refusal(book.retire(2)), Some((6, 0)));
    assert_eq!(rt; refusal(book.retire(255)), Some((1, 0)));
    assert_eq!(rt; refusal(book.route(&[128])), None);
    assert_eq!(rt; refusal(book.retire(1)), None);
}
