//! Scripts that are generated.
use script_text::generate;

const ONE_LANE: &str = "hrt 1\nbases 1\nlanes 1\nlimit 1000000\n\
    raw 0 monotonic every 100\nraw 1 monotonic once\nround\n0 advance 50\nround\n\
    0 start 0 rel 13 0\n0 expire 0 8\n0 start 1 rel 12 0\nround\n0 advance 50\nround\n0 expire 0 8\n";

const NO_CALLS: &str = "hrt 1\nbases 2\nlanes 2\nlimit 1000000\n\
    raw 0 monotonic every 100\nraw 1 monotonic once\nraw 2 monotonic every 100\nraw 3 monotonic once\n\
    round\n0 advance 50\nround\n0 expire 0 8\n1 expire 1 8\n";

#[test]
fn writes_the_bytes_of_a_script(rt: HostRuntime) {
    let one = generate(rt.alloc(), 1, 1, 3).expect(&rt, "memory");
    assert_eq!(rt; one.as_slice(), ONE_LANE.as_bytes());
    let none = generate(rt.alloc(), 1, 2, 0).expect(&rt, "memory");
    assert_eq!(rt; none.as_slice(), NO_CALLS.as_bytes());
}
