//! Mapping a path of 100 bytes, with 1,024 rules and with one.

use cy_bytes::{Bytes, NoMemory};
use cy_map::{MAX_RULES, MapFault, Mapper, Rule};
use std::alloc::{AllocError, Global};

/// Paths of 100 bytes under a prefix that is among the rules.
const PATHS: [&[u8]; 2] = [
    b"/shop/department/maps-and-atlases/europe/north/iceland/reykjavik/the-old-harbour/plan-of-the-town.ht",
    b"/shop/department/maps-and-atlases/europe/north/iceland/reykjavik/the-new-harbour/plan-of-the-town.ht",
];

/// The prefix that the paths are under.
const PREFIX: &[u8] = b"/shop/department/maps-and-atlases/*";

/// How many rules of each form there are beside the prefix, among many.
const OF_EACH_FORM: u32 = 341;

/// Finds so often with 1,024 rules: the prefix, and exact paths, prefixes and extensions that none of the paths finds.
pub fn map_of_1024(alloc: Global, times: u64) -> Result<u64, NoMemory> {
    let mut rules = Vec::new(alloc);
    rules.push(rule(alloc, PREFIX, 0)?)?;
    for part in 1..=OF_EACH_FORM {
        let exact = format!(in alloc; "/shop/department/item-{part}")?;
        rules.push(rule(alloc, exact.as_bytes(), part)?)?;
        let prefix = format!(in alloc;
            "/shop/department/maps-and-atlases/europe/north/land-{part}/*"
        )?;
        rules.push(rule(alloc, prefix.as_bytes(), part)?)?;
        let extension = format!(in alloc; "*.kind-{part}")?;
        rules.push(rule(alloc, extension.as_bytes(), part)?)?;
    }
    finds(alloc, &rules, times)
}

/// Finds so often with the prefix alone.
pub fn map_of_1(alloc: Global, times: u64) -> Result<u64, NoMemory> {
    let mut rules = Vec::new(alloc);
    rules.push(rule(alloc, PREFIX, 0)?)?;
    finds(alloc, &rules, times)
}

fn rule(alloc: Global, pattern: &[u8], part: u32) -> Result<Rule, AllocError> {
    Ok(Rule {
        pattern: Bytes::of(Vec::from_slice(alloc, pattern)?),
        part,
        can_async: part % 2 == 0,
    })
}

/// The checksum of so many searches.
fn finds(alloc: Global, rules: &[Rule], times: u64) -> Result<u64, NoMemory> {
    let Some(mapper) = mapper_of(alloc, rules)? else {
        return Ok(0);
    };
    let mut sum = 0u64;
    for turn in 0..times {
        if let Some(found) = mapper.find(PATHS[(turn % 2) as usize]) {
            sum = sum.wrapping_add(u64::from(found.part) + 1);
        }
    }
    Ok(sum)
}

/// A mapper of rules that are good and few enough.
fn mapper_of(alloc: Global, rules: &[Rule]) -> Result<Option<Mapper>, NoMemory> {
    if rules.len() > MAX_RULES {
        return Ok(None);
    }
    match Mapper::new(alloc, rules) {
        Ok(mapper) => Ok(Some(mapper)),
        Err(MapFault::NoMemory) => Err(NoMemory),
        Err(_) => Ok(None),
    }
}
