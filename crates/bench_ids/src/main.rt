//! Asks requests at a table of open requests and answers them, for `bench/ids`. With the words `COUNT ORDER`, where the order in which
//! they are answered is `rising`, `falling` or `mixed`, it writes the nanoseconds of processor time that this took. Without words it asks
//! and answers a hundred, and writes the number that the next would get.
#![tactic(auto)]

use id_rewrite::{IdTable, Pending};
use itoa::Buffer;
use message_body::Body;
use std::alloc::Global;
use std::env;
use std::io::Write;
use std::process::ExitCode;
use std::time::CpuClock;

#[derive(Clone, Copy)]
enum Order {
    Rising,
    Falling,
    Mixed,
}

// Which request is answered as the one of this place, from 0 on.
fn answered(order: Order, place: u64, count: u64) -> u64 {
    match order {
        Order::Rising => place,
        Order::Falling => count.saturating_sub(place).saturating_sub(1),
        Order::Mixed if count > 0 => place.wrapping_mul(7919) % count,
        Order::Mixed => 0,
    }
}

// The requests are asked by editor 0, each under its number as an id.
fn ask(alloc: Global, table: &mut IdTable, count: u64) -> Option<()> {
    let mut buffer = Buffer::new();
    for i in 0..count {
        let id = buffer.format(i).as_bytes();
        if table.find(0, id).is_some() {
            return None;
        }
        let pending = Pending {
            editor: 0,
            id: Body::new(id.to_vec(alloc).ok()?),
            work: None,
            partial: None,
            cancelled: false,
            noted: None,
        };
        table.next().ok()?;
        table.reserve().ok()?;
        table.put(pending);
    }
    Some(())
}

// Each is looked for by its id, cancelled and answered.
fn answer(table: &mut IdTable, order: Order, count: u64) -> Option<()> {
    let mut buffer = Buffer::new();
    for place in 0..count {
        let id = buffer.format(answered(order, place, count)).as_bytes();
        let number = table.find(0, id)?;
        table.cancel(number);
        table.take(number)?;
    }
    Some(())
}

fn order_of(word: &str) -> Option<Order> {
    match word {
        "rising" => Some(Order::Rising),
        "falling" => Some(Order::Falling),
        "mixed" => Some(Order::Mixed),
        _ => None,
    }
}

// What the two words behind the program's name ask for.
fn asked(rt: &HostRuntime) -> Option<(u64, Order)> {
    let mut words = env::args(rt).ok()?.skip(1);
    let count = words.next()?.as_str().parse::<u64>().ok()?;
    let order = order_of(words.next()?.as_str())?;
    Some((count, order))
}

// The number that comes next behind a hundred that were asked and answered.
fn count_hundred(rt: &HostRuntime) -> Option<u128> {
    let mut table = IdTable::new(rt.alloc(), u32::MAX);
    ask(rt.alloc(), &mut table, 100)?;
    answer(&mut table, Order::Mixed, 100)?;
    Some(u128::from(table.next().ok()?))
}

// The nanoseconds that so many take.
fn time(rt: &HostRuntime, count: u64, order: Order) -> Option<u128> {
    let mut table = IdTable::new(rt.alloc(), u32::MAX);
    let begin = rt.process_cpu_time().ok()?;
    ask(rt.alloc(), &mut table, count)?;
    answer(&mut table, order, count)?;
    let end = rt.process_cpu_time().ok()?;
    Some(end.saturating_sub(begin).as_nanos())
}

fn main(rt: HostRuntime) -> ExitCode {
    let answer = match asked(&rt) {
        Some((count, order)) => time(&rt, count, order),
        None => count_hundred(&rt),
    };
    let Some(number) = answer else {
        return ExitCode::from(1);
    };
    if writeln!(rt.stdout(), "{number}").is_err() {
        return ExitCode::from(2);
    }
    ExitCode::SUCCESS
}
