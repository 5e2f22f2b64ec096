// The answers in words, one line each.
use contact::{HandedOut, Judged, JudgedUnder, NextRefused};
use settings::Bad;
use telegram::{Found, NotFound, NotSeven, Telegram};

// Words on the line.
pub fn words(rt: &impl Print, text: &[u8]) {
    let _ = rt.write_all(text);
}

// A number on the line.
pub fn number(rt: &impl Print, n: u64) {
    let _ = rt.print(n);
}

// The judgement of a sync pair.
pub fn pair(rt: &impl Print, answer: Result<(), NotSeven>) {
    match answer {
        Ok(()) => words(rt, b"good\n"),
        Err(NotSeven) => words(rt, b"refused 4\n"),
    }
}

// The figures of a telegram, or its number.
fn telegram(rt: &impl Print, said: Telegram) {
    match said {
        Telegram::Figures(x, y, z) => {
            words(rt, b"figures ");
            number(rt, x as u64);
            words(rt, b" ");
            number(rt, y as u64);
            words(rt, b" ");
            number(rt, z as u64);
        }
        Telegram::Number(n) => {
            words(rt, b"number ");
            number(rt, n as u64);
        }
    }
}

// What the search for single telegrams found.
pub fn found(rt: &impl Print, answer: Result<Found, NotFound>) {
    match answer {
        Ok(
            Found {
                place,
                telegram: said,
            },
        ) => {
            words(rt, b"place ");
            number(rt, place as u64);
            words(rt, b", ");
            telegram(rt, said);
            words(rt, b"\n");
        }
        Err(NotFound::NotSeven) => words(rt, b"refused 4\n"),
        Err(NotFound::Beyond) => words(rt, b"refused 5\n"),
        Err(NotFound::NoPlace) => words(rt, b"refused 6\n"),
    }
}

// What the detector handed out.
pub fn next(rt: &impl Print, answer: Result<Option<HandedOut>, NextRefused>) {
    match answer {
        Ok(Some(contact)) => {
            words(rt, b"contact from bit ");
            number(rt, contact.start as u64);
            words(rt, b", ");
            number(rt, contact.length as u64);
            words(rt, b" bits\n");
        }
        Ok(None) => words(rt, b"no further contact\n"),
        Err(NextRefused::Cut) => words(rt, b"refused 9\n"),
        Err(NextRefused::Beyond) => words(rt, b"refused 5\n"),
    }
}

// A contact that was read.
fn read(rt: &impl Print, said: Telegram, first: usize, count: usize) {
    words(rt, b"read ");
    telegram(rt, said);
    words(rt, b", first place ");
    number(rt, first as u64);
    words(rt, b", places ");
    number(rt, count as u64);
    words(rt, b"\n");
}

// What a contact was judged to be.
pub fn judged(rt: &impl Print, answer: Judged) {
    match answer {
        Judged::Read {
            telegram: said,
            first,
            count,
        } => read(rt, said, first, count),
        Judged::Marker => words(rt, b"marker\n"),
        Judged::NotSeven => words(rt, b"refused 4\n"),
        Judged::Beyond => words(rt, b"refused 5\n"),
        Judged::Differ => words(rt, b"refused 7\n"),
        Judged::Neither => words(rt, b"refused 8\n"),
    }
}

// Why settings or a place are refused.
fn bad(rt: &impl Print, why: Bad) {
    match why {
        Bad::Pair => words(rt, b"refused 4\n"),
        Bad::Gap => words(rt, b"refused 19\n"),
        Bad::TooHigh => words(rt, b"refused 18\n"),
        Bad::NotAbove => words(rt, b"refused 24\n"),
        Bad::Full => words(rt, b"refused 25\n"),
    }
}

// What a contact was judged to be under a store.
pub fn judged_under(rt: &impl Print, answer: JudgedUnder) {
    match answer {
        JudgedUnder::Read {
            telegram: said,
            first,
            count,
        } => read(rt, said, first, count),
        JudgedUnder::Marker => words(rt, b"marker\n"),
        JudgedUnder::Settings(why) => bad(rt, why),
        JudgedUnder::Beyond => words(rt, b"refused 5\n"),
        JudgedUnder::Differ => words(rt, b"refused 7\n"),
        JudgedUnder::Neither => words(rt, b"refused 8\n"),
    }
}
