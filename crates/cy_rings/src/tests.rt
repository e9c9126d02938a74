// Each call on its happy path, with ample memory: bytes go through each ring in order, and one ring leaves the other.
ghost use Rattle.std.specs.Prelude.{◌≡◌, drop};

use super::*;
use std::test::Fail;

/// Takes all up to the first such byte, and that byte, and tells how many. It knows the kit after each call.
fn pass_over(kit: &mut ConnKit, byte: u8) -> usize
    ensures { kit.new ≡ record kit.old { input = drop result kit.old.input } }
{
    let front: &[u8] = kit.in_front();
    let count = match front.iter().position(|b| *b == byte) {
        Some(place) => place + 1,
        None => 0,
    };
    kit.take_in(count);
    count
}

#[test]
fn bytes_come_in_and_are_taken(rt: HostRuntime) -> Result<(), Fail> {
    let mut kit = ConnKit::new(rt.alloc())?;
    assert_eq!(rt; kit.put_in(b"GET / HTTP/1.1"), 14);
    assert_eq!(rt; kit.put_in(b"\r\n"), 2);
    assert_eq!(rt; kit.in_front(), b"GET / HTTP/1.1\r\n".as_slice());
    assert_eq!(rt; pass_over(&mut kit, b' '), 4);
    assert_eq!(rt; pass_over(&mut kit, b'~'), 0);
    assert_eq!(rt; kit.in_front(), b"/ HTTP/1.1\r\n".as_slice());
    assert_eq!(rt; kit.in_len(), 12);
    assert_eq!(rt; kit.in_room(), IN_CAPACITY - 12);
    assert_eq!(rt; kit.out_len(), 0);
    Ok(())
}

#[test]
fn bytes_go_out_and_are_taken(rt: HostRuntime) -> Result<(), Fail> {
    let mut kit = ConnKit::new(rt.alloc())?;
    kit.put_out(b"HTTP/1.1 ");
    kit.put_out(b"200 \r\n");
    assert_eq!(rt; kit.out_front(), b"HTTP/1.1 200 \r\n".as_slice());
    kit.took_out(9);
    assert_eq!(rt; kit.out_front(), b"200 \r\n".as_slice());
    assert_eq!(rt; kit.out_len(), 6);
    assert_eq!(rt; kit.out_room(), OUT_CAPACITY - 6);
    assert_eq!(rt; kit.in_len(), 0);
    Ok(())
}

#[test]
fn a_full_in_ring_takes_what_fits(rt: HostRuntime) -> Result<(), Fail> {
    let mut kit = ConnKit::new(rt.alloc())?;
    let page = [7u8; 10_000];
    assert_eq!(rt; kit.put_in(&page), 10_000);
    assert_eq!(rt; kit.put_in(&page), 6_384);
    assert_eq!(rt; kit.put_in(b"more"), 0);
    assert_eq!(rt; kit.in_room(), 0);
    Ok(())
}

#[test]
fn clear_empties_both_rings(rt: HostRuntime) -> Result<(), Fail> {
    let mut kit = ConnKit::new(rt.alloc())?;
    kit.put_in(b"in");
    kit.put_out(b"out");
    kit.clear();
    assert_eq!(rt; kit.in_front(), b"".as_slice());
    assert_eq!(rt; kit.out_front(), b"".as_slice());
    Ok(())
}

#[test]
fn the_error_is_printed(rt: HostRuntime) -> Result<(), Fail> {
    assert_eq!(rt;
        format!(in rt.alloc(); "{NoMemory}")?.as_str(),
        "out of memory"
    );
    Ok(())
}
