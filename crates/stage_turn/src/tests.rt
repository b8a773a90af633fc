ghost use Rattle.std.specs.Prelude.{◌≡◌, ◌<◌, ◌++◌, [], ◌∷◌, IfOk, false};
ghost use Rattle.stage_turn.specs.Known.{IsWriter, IsClerk, IsResting, MayAdd};
ghost use Rattle.stage_turn.specs.TestLog.{IsSameRole};
ghost use Rattle.stage_turn.specs.Kept.{count_of};

mod log;

use crate::seat::TurnSeat;
use crate::tests::log::{Entry, Log};
use crate::turn::Turn;
use sim_base::NoMemory;
use std::sync::Wait;
use std::test::*;
use std::thread;
use std::thread::Threads;

// Opens the next client, which is then this clerk's.
fn open<R: Wait>(rt: &R, turn: &Turn<Log>, seat: &mut TurnSeat<Log>) -> Result<u64, NoMemory>
    requires seat { (seat.old.turn ≡ turn.now) × IsResting seat.old.knows }
    requires clerk { IsClerk seat.old.knows }
    ensures seat { (seat.new.turn ≡ turn.now) × IsResting seat.new.knows }
    ensures role { IsSameRole seat.old.knows seat.new.knows }
    ensures opened { IfOk result (λ c. seat.new.knows.own.clients ≡ seat.old.knows.own.clients ++ c ∷ []) }
{
    let mut log = turn.take(rt, seat);
    let opened = log.open();
    turn.leave(seat, log);
    opened
}

// Adds an entry that opens nobody.
fn add<R: Wait>(
    rt: &R,
    turn: &Turn<Log>,
    seat: &mut TurnSeat<Log>,
    entry: Entry,
) -> Result<(), NoMemory>
    requires seat { (seat.old.turn ≡ turn.now) × IsResting seat.old.knows }
    requires own { MayAdd seat.old.knows.own entry.owner }
    requires opens_nobody { entry.opens ≡ false }
    ensures seat { (seat.new.turn ≡ turn.now) × IsResting seat.new.knows }
    ensures role { IsSameRole seat.old.knows seat.new.knows }
    ensures clients { seat.new.knows.own.clients ≡ seat.old.knows.own.clients }
{
    let mut log = turn.take(rt, seat);
    let added = log.add(entry);
    turn.leave(seat, log);
    added
}

// Adds the writer's records from 0 on.
fn record_all<R: Wait>(
    rt: &R,
    turn: &Turn<Log>,
    seat: &mut TurnSeat<Log>,
    count: u64,
) -> Result<(), NoMemory>
    requires seat { (seat.old.turn ≡ turn.now) × IsResting seat.old.knows }
    requires writer { IsWriter seat.old.knows }
    ensures seat { (seat.new.turn ≡ turn.now) × IsResting seat.new.knows }
    ensures role { IsSameRole seat.old.knows seat.new.knows }
{
    for number in 0..count {
        add(rt, turn, seat, Entry::record(number))?;
    }
    Ok(())
}

// Adds a client's packets from 0 on.
fn send_all<R: Wait>(
    rt: &R,
    turn: &Turn<Log>,
    seat: &mut TurnSeat<Log>,
    client: u64,
    count: u64,
) -> Result<(), NoMemory>
    requires seat { (seat.old.turn ≡ turn.now) × IsResting seat.old.knows }
    requires client { 0 < count_of client seat.old.knows.own.clients }
    ensures seat { (seat.new.turn ≡ turn.now) × IsResting seat.new.knows }
    ensures role { IsSameRole seat.old.knows seat.new.knows }
{
    for number in 0..count {
        add(rt, turn, seat, Entry::packet(client, number))?;
    }
    Ok(())
}

// The writer and a clerk take the turn 1,000 times each, in two threads.
fn run_both<R: Wait + Threads + Sync>(
    rt: &R,
    turn: &Turn<Log>,
    mut writer: TurnSeat<Log>,
    mut clerk: TurnSeat<Log>,
    client: u64,
) -> Result<(TurnSeat<Log>, TurnSeat<Log>), NoMemory>
    requires writer { (writer.turn ≡ turn.now) × IsResting writer.knows × IsWriter writer.knows }
    requires clerk { (clerk.turn ≡ turn.now) × IsResting clerk.knows × (0 < count_of client clerk.knows.own.clients) }
    ensures writer { IfOk result (λ r. (r.0.turn ≡ turn.now) × IsResting r.0.knows × IsSameRole writer.knows r.0.knows) }
    ensures clerk { IfOk result (λ r. (r.1.turn ≡ turn.now) × IsResting r.1.knows × IsSameRole clerk.knows r.1.knows) }
{
    let (recorded, sent) = thread::join(
        rt,
        move ||
            requires { (writer.turn ≡ turn.now) × IsResting writer.knows × IsWriter writer.knows }
            ensures { (result.1.turn ≡ turn.entry.now) × IsResting result.1.knows × IsSameRole writer.knows result.1.knows }
        {
            let done = record_all(rt, turn, &mut writer, 1000);
            (done, writer)
        },
        move ||
            requires { (clerk.turn ≡ turn.now) × IsResting clerk.knows × (0 < count_of client clerk.knows.own.clients) }
            ensures { (result.1.turn ≡ turn.entry.now) × IsResting result.1.knows × IsSameRole clerk.knows result.1.knows }
        {
            let done = send_all(rt, turn, &mut clerk, client, 1000);
            (done, clerk)
        },
    );
    let (recorded, writer) = recorded;
    let (sent, clerk) = sent;
    recorded?;
    sent?;
    Ok((writer, clerk))
}

#[test]
fn two_threads_lose_no_entry(rt: HostRuntime) -> Result<(), NoMemory> {
    let alloc = rt.alloc();
    let (turn, writer, mut clerk) = Turn::new(alloc, Log::new(alloc, 7))?;
    let client = open(&rt, &turn, &mut clerk)?;
    let (writer, clerk) = run_both(&rt, &turn, writer, clerk, client)?;
    let log = turn.close(writer, clerk);
    let mut records = 0u64;
    let mut packets = 0u64;
    for entry in log.entries.iter() {
        if entry.is_same(&Entry::record(records)) {
            records = records.wrapping_add(1);
        } else if entry.is_same(&Entry::packet(client, packets)) {
            packets = packets.wrapping_add(1);
        } else {
            assert!(rt; entry.is_same(&Entry::open(client)));
        }
    }
    assert_eq!(rt; (records, packets, log.entries.len()), (1000, 1000, 2001));
    Ok(())
}

#[test]
fn clerks_split_and_join_until_the_end(rt: HostRuntime) -> Result<(), NoMemory> {
    let alloc = rt.alloc();
    let (turn, mut writer, mut clerk) = Turn::new(alloc, Log::new(alloc, 7))?;
    add(&rt, &turn, &mut writer, Entry::record(0))?;
    let first = open(&rt, &turn, &mut clerk)?;
    let mut second_clerk = turn.split(&mut clerk);
    let second = open(&rt, &turn, &mut second_clerk)?;
    add(&rt, &turn, &mut second_clerk, Entry::packet(second, 5))?;
    add(&rt, &turn, &mut second_clerk, Entry::close(second))?;
    turn.join(&mut clerk, second_clerk);
    add(&rt, &turn, &mut clerk, Entry::close(first))?;
    add(&rt, &turn, &mut clerk, Entry::end())?;
    let log = turn.close(writer, clerk);
    let want = [
        Entry::record(0),
        Entry::open(0),
        Entry::open(1),
        Entry::packet(1, 5),
        Entry::close(1),
        Entry::close(0),
        Entry::end(),
    ];
    assert_eq!(rt; log.entries.len(), want.len());
    for (entry, wanted) in log.entries.iter().zip(want.iter()) {
        assert!(rt; entry.is_same(wanted));
    }
    Ok(())
}

// Loads the count in another thread.
fn count_aside<R: Threads + Sync>(
    rt: &R,
    turn: &Turn<Log>,
    mut seat: TurnSeat<Log>,
) -> (u64, TurnSeat<Log>)
    requires { seat.turn ≡ turn.now }
    ensures { (result.1.turn ≡ turn.now) }
{
    let (counted, _) = thread::join(
        rt,
        move ||
            requires { seat.turn ≡ turn.now }
            ensures { result.1.turn ≡ turn.entry.now }
        {
            let count = turn.load_count(&mut seat);
            (count, seat)
        },
        || (),
    );
    counted
}

#[test]
fn a_count_waits_for_nobody(rt: HostRuntime) -> Result<(), NoMemory> {
    let alloc = rt.alloc();
    let (turn, mut writer, clerk) = Turn::new(alloc, Log::new(alloc, 7))?;
    add(&rt, &turn, &mut writer, Entry::record(0))?;
    let _log = turn.take(&rt, &mut writer);
    let (count, _clerk) = count_aside(&rt, &turn, clerk);
    assert_eq!(rt; count, 1);
    Ok(())
}
