//! Histories, an entry a line: those of which each entry may come next, and entries that may not.
use hall_core::{
    Act, Entry, Goal, Hall, History, Why, law_of_batches, law_of_beginnings, law_of_clients,
    law_of_first_entries, law_of_goals, law_of_goals_ahead, law_of_hold, law_of_logs,
    law_of_moments, law_of_openings, law_of_progress, law_of_records, law_of_runs, law_of_steps,
    log_text,
};
use sim_base::Kinds;
use std::alloc::{AllocError, Global};
use std::process::Abort;
use std::test::Fail;

/// The first word, and the words behind it.
fn word_of(words: &str) -> (&str, &str) {
    words.split_once(' ').unwrap_or((words, ""))
}

fn number(word: &str) -> Option<u64> {
    word.parse().ok()
}

fn kinds_of(words: &str) -> Kinds {
    Kinds {
        asserts: words.contains("assert"),
        assumes: words.contains("assume"),
    }
}

fn act_of(words: &str) -> Option<Act> {
    let (word, words) = word_of(words);
    let (n, kinds) = word_of(words);
    match word {
        "" => Some(Act::Look),
        "pause" => Some(Act::Pause),
        "run" => Some(Act::Run(number(n)?, kinds_of(kinds))),
        _ => None,
    }
}

fn why_of(word: &str) -> Option<Why> {
    match word {
        "ended" => Some(Why::Ended),
        "fault" => Some(Why::Fault),
        "too_long" => Some(Why::TooLong),
        "slow" => Some(Why::Slow),
        "limit" => Some(Why::Limit),
        "memory" => Some(Why::Memory),
        "over" => Some(Why::Over),
        _ => None,
    }
}

/// The entry that a line of a log stands for.
fn entry_of(line: &str) -> Option<Entry> {
    let (word, words) = word_of(line);
    let (n, rest) = word_of(words);
    match word {
        "record" => Some(Entry::Record(number(n)?, rest == "hit")),
        "open" => Some(Entry::Open(number(n)?)),
        "packet" => Some(Entry::Packet(number(n)?, act_of(rest)?)),
        "unsettled" => Some(Entry::Unsettled),
        "close" => Some(Entry::Close(number(n)?, why_of(rest)?)),
        "end" => Some(Entry::End),
        _ => None,
    }
}

fn word_if(flag: bool, word: &str) -> &str {
    if flag { word } else { "" }
}

/// The number of samples and the goal of a history.
fn standing(alloc: Global, hall: &Hall) -> Result<String, AllocError> {
    let n = hall.n();
    match hall.goal() {
        Goal::Hold => format!(in alloc; "{n} hold"),
        Goal::Over => format!(in alloc; "{n} over"),
        Goal::To(end, kinds) => {
            let asserts = word_if(kinds.asserts, " assert");
            let assumes = word_if(kinds.assumes, " assume");
            format!(in alloc; "{n} to {end}{asserts}{assumes}")
        }
    }
}

/// Takes in the entry of a row, with what stands behind it, or sees that it may not come next.
fn goes(rt: &impl Abort, alloc: Global, hall: &mut Hall, row: &str) -> Result<bool, Fail> {
    let (line, want) = row.split_once(" -> ").unwrap_or((row, ""));
    let Some(entry) = entry_of(line) else {
        assert!(rt; false, "{row}");
        return Ok(false);
    };
    if !hall.allows(entry) {
        assert_eq!(rt; "no", want, "{row}");
        return Ok(false);
    }
    hall.step(entry)?;
    let got = standing(alloc, hall)?;
    assert_eq!(rt; got.as_str(), want, "{row}");
    Ok(true)
}

/// A history's rows behind a line with the number of its samples.
fn history_goes(rt: &impl Abort, alloc: Global, section: &str) -> Result<(), Fail> {
    let (head, rows) = section.split_once('\n').unwrap_or((section, ""));
    let (count, _) = word_of(head);
    let mut hall = Hall::new(alloc, number(count).unwrap_or(0))?;
    let mut log = String::new(alloc);
    for row in rows.lines() {
        if goes(rt, alloc, &mut hall, row)? {
            let (line, _) = row.split_once(" -> ").unwrap_or((row, ""));
            log.push_str(line)?;
            log.push_str("\n")?;
        }
    }
    let text = log_text(alloc, hall.history())?;
    assert_eq!(rt; text.as_slice(), log.as_bytes(), "{head}");
    Ok(())
}

const HISTORIES: &str = "2 samples, of which the second does not settle
record 1 -> 1 hold
open 0 -> 1 hold
packet 0 -> 1 hold
packet 0 run 2 -> 1 to 2
unsettled -> 1 hold
packet 0 run 2 -> 1 hold
close 0 ended -> 1 hold
end -> 1 over

512 samples: a run without a time goes to the end
record 1 -> 1 hold
open 0 -> 1 hold
packet 0 -> 1 hold
packet 0 -> 1 hold
packet 0 run 512 -> 1 to 512
record 256 -> 257 to 512
packet 0 -> 257 to 512
record 255 -> 512 hold
packet 0 -> 512 hold
packet 0 -> 512 hold
packet 0 -> 512 hold
close 0 ended -> 512 hold
end -> 512 over

6 samples: a run to what is recorded reaches its goal at once
record 1 -> 1 hold
open 0 -> 1 hold
packet 0 -> 1 hold
packet 0 run 4 -> 1 to 4
record 3 -> 4 hold
packet 0 -> 4 hold
packet 0 run 4 -> 4 hold
packet 0 run 0 assert assume -> 4 hold

512 samples: a pause and a shorter run
record 1 -> 1 hold
open 0 -> 1 hold
packet 0 run 100 -> 1 to 100
record 64 -> 65 to 100
packet 0 pause -> 65 hold
packet 0 run 70 -> 65 to 70
record 5 -> 70 hold

9 samples: a run stops at a hit
record 1 -> 1 hold
open 0 -> 1 hold
open 1 -> 1 hold
packet 1 run 9 assert -> 1 to 9 assert
record 2 -> 3 to 9 assert
record 1 hit -> 4 hold
packet 0 run 5 assume -> 4 to 5 assume
record 1 hit -> 5 hold

6 samples, an assertion fires at 3 and 4: a run that stops at assertions
record 1 -> 1 hold
open 0 -> 1 hold
packet 0 -> 1 hold
packet 0 run 6 assert -> 1 to 6 assert
record 3 hit -> 4 hold
packet 0 run 6 assert -> 4 to 6 assert
record 1 hit -> 5 hold
packet 0 run 6 assert -> 5 to 6 assert
record 1 -> 6 hold
close 0 ended -> 6 hold
end -> 6 over

6 samples, an assertion fires at 3 and 4: a run that stops at assumptions
record 1 -> 1 hold
open 0 -> 1 hold
packet 0 -> 1 hold
packet 0 run 6 assume -> 1 to 6 assume
record 5 -> 6 hold
close 0 ended -> 6 hold
end -> 6 over

9 samples: what may not begin
open 0 -> no
packet 0 -> no
packet 0 run 1 -> no
record 0 -> no
record 1 hit -> no
record 2 -> no
close 0 ended -> no
end -> no

9 samples: sample 0 does not settle
unsettled -> 0 hold
open 0 -> no
packet 0 -> no
record 1 -> no
unsettled -> no
close 0 ended -> no
end -> 0 over
open 0 -> no
open 1 -> no
packet 0 -> no
record 1 -> no
unsettled -> no
close 0 ended -> no
end -> no

9 samples: nothing follows the end
record 1 -> 1 hold
end -> 1 over
open 0 -> no
open 1 -> no
packet 0 -> no
record 1 -> no
unsettled -> no
close 0 ended -> no
end -> no

9 samples: a client is open from its open to its close
record 1 -> 1 hold
open 1 -> no
packet 0 -> no
close 0 fault -> no
open 0 -> 1 hold
open 0 -> no
open 2 -> no
packet 1 -> no
close 1 ended -> no
packet 18446744073709551615 -> no
end -> no
close 0 fault -> 1 hold
open 0 -> no
packet 0 -> no
close 0 fault -> no

9 samples: no end before each client is gone
record 1 -> 1 hold
open 0 -> 1 hold
open 1 -> 1 hold
close 0 fault -> 1 hold
end -> no

9 samples: a goal lets no more be recorded, nor a pause
record 1 -> 1 hold
record 1 -> no
record 1 hit -> no
unsettled -> no
open 0 -> 1 hold
packet 0 run 4 -> 1 to 4
record 0 -> no
record 4 -> no
record 18446744073709551615 -> no
packet 0 run 10 -> no
packet 0 pause -> 1 hold
record 1 -> no
record 1 hit -> no
unsettled -> no

9 samples: nothing is recorded behind a goal that is reached
record 1 -> 1 hold
open 0 -> 1 hold
packet 0 run 4 -> 1 to 4
record 3 -> 4 hold
record 1 -> no
record 1 hit -> no
unsettled -> no

9 samples: nothing is recorded behind a hit
record 1 -> 1 hold
open 0 -> 1 hold
packet 0 run 4 -> 1 to 4
record 1 hit -> 2 hold
record 1 -> no
record 1 hit -> no
unsettled -> no

9 samples: nothing is recorded behind a sample that does not settle
record 1 -> 1 hold
open 0 -> 1 hold
packet 0 run 4 -> 1 to 4
unsettled -> 1 hold
packet 0 run 4 -> 1 hold
record 1 -> no
record 1 hit -> no
unsettled -> no";

#[test]
fn what_may_come_next_and_what_may_not(rt: HostRuntime) -> Result<(), Fail> {
    for section in HISTORIES.split("\n\n") {
        history_goes(&rt, rt.alloc(), section)?;
    }
    Ok(())
}

const GONE: &str = "close 18446744073709551615 ended
close 18446744073709551615 fault
close 18446744073709551615 too_long
close 18446744073709551615 slow
close 18446744073709551615 limit
close 18446744073709551615 memory
close 18446744073709551615 over
";

#[test]
fn a_client_is_gone_for_a_reason(rt: HostRuntime) -> Result<(), Fail> {
    let mut entries = Vec::new(rt.alloc());
    for line in GONE.lines() {
        if let Some(entry) = entry_of(line) {
            entries.push(entry)?;
        }
    }
    let history = History::new(entries);
    let text = log_text(rt.alloc(), &history)?;
    assert_eq!(rt; text.as_slice(), GONE.as_bytes());
    assert_eq!(rt; history.into_list().len(), 7);
    Ok(())
}

#[test]
fn steps_that_room_was_made_for(rt: HostRuntime) -> Result<(), Fail> {
    let mut hall = Hall::new(rt.alloc(), 9)?;
    assert!(rt; goes(&rt, rt.alloc(), &mut hall, "record 1 -> 1 hold")?);
    hall.reserve(100)?;
    for client in 0..100 {
        let entry = Entry::Open(client);
        assert!(rt; hall.allows(entry));
        hall.step(entry)?;
    }
    assert_eq!(rt; hall.history().as_slice().len(), 101);
    law_of_batches();
    law_of_beginnings();
    law_of_clients();
    law_of_first_entries();
    law_of_goals();
    law_of_goals_ahead();
    law_of_hold();
    law_of_logs();
    law_of_moments();
    law_of_openings();
    law_of_progress();
    law_of_records();
    law_of_runs();
    law_of_steps();
    Ok(())
}
