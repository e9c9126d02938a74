// Steps of three connections by turns, as chance has it: each gets what it gets alone.
use super::recycled::{Guest, each_alone, expect_alone, turn_to};
use super::*;

/// How many times three connections are mixed.
const SEEDS: u64 = 100;

/// The next number of a row of numbers (Knuth, 3.3.4, the multiplier of MMIX).
fn next(number: u64) -> u64 {
    number
        .wrapping_mul(6_364_136_223_846_793_005)
        .wrapping_add(1_442_695_040_888_963_407)
}

/// The upper bits of a number, by which one of a few is picked.
fn upper(number: u64) -> usize {
    (number >> 33) as usize
}

/// Three connections by turns until all are gone, as chance has it from this number on.
fn mix(
    rt: &impl Abort,
    alloc: Global,
    world: &mut World,
    guests: &mut Vec<Guest>,
    mut number: u64,
) -> Result<(), Fail> {
    for _ in 0..200 {
        number = next(number);
        let conn = upper(number) % 3;
        if let Some(guest) = guests.get_mut(conn) {
            turn_to(rt, alloc, world, conn as u64, guest)?;
        }
    }
    Ok(())
}

/// Three connections with courses that chance picks, from this number on.
fn guests(alloc: Global, mut number: u64) -> Result<Vec<Guest>, Fail> {
    let mut guests = Vec::new(alloc);
    for _ in 0..3 {
        number = next(number);
        guests.push(Guest::of(alloc, upper(number) % COURSES.len()))?;
    }
    Ok(guests)
}

#[test]
fn mixed_connections_are_served_as_if_alone(rt: HostRuntime) -> Result<(), Fail> {
    let alloc = rt.alloc();
    let alone = each_alone(&rt, alloc)?;
    for seed in 0..SEEDS {
        let mut world = world(alloc, 3)?;
        let mut guests = guests(alloc, seed)?;
        mix(&rt, alloc, &mut world, &mut guests, next(seed))?;
        for (conn, guest) in guests.iter_mut().enumerate() {
            expect_alone(&rt, alloc, &world, conn as u64, guest, &alone)?;
        }
    }
    Ok(())
}
