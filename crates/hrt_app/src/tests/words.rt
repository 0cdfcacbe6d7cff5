//! What words of a command line ask for.
use hrt_top::{Request, asks, what_words_ask_for};
use std::test::Fail;

const MADE: Option<Request> = Some(Request::Make {
    seed: 2147483647,
    lanes: 8,
    calls: 4096,
});

const CASES: [(&[&str], Option<Request>); 16] = [
    (&[], None),
    (&["hrt"], None),
    (&["hrt", "run"], Some(Request::Run)),
    (&["hrt", "run", "run"], None),
    (&["hrt", "--help"], None),
    (&["hrt", "run", "--help"], None),
    (&["hrt", "gen", "--help"], None),
    (&["hrt", "gen", "--seed", "1", "--lanes", "1"], None),
    (
        &["hrt", "gen", "--seed", "0", "--lanes", "1", "--calls", "0"],
        Some(Request::Make {
            seed: 0,
            lanes: 1,
            calls: 0,
        }),
    ),
    (
        &[
            "hrt",
            "gen",
            "--calls",
            "4096",
            "--seed",
            "2147483647",
            "--lanes",
            "8",
        ],
        MADE,
    ),
    (
        &[
            "hrt",
            "gen",
            "--lanes=8",
            "--calls=4096",
            "--seed=2147483647",
        ],
        MADE,
    ),
    (
        &[
            "hrt",
            "gen",
            "--seed",
            "2147483648",
            "--lanes",
            "1",
            "--calls",
            "0",
        ],
        None,
    ),
    (
        &["hrt", "gen", "--seed", "0", "--lanes", "9", "--calls", "0"],
        None,
    ),
    (
        &[
            "hrt", "gen", "--seed", "0", "--lanes", "1", "--calls", "4097",
        ],
        None,
    ),
    (
        &["hrt", "gen", "--seed", "01", "--lanes", "1", "--calls", "0"],
        None,
    ),
    (
        &[
            "hrt", "gen", "--seed", "1", "--seed", "1", "--lanes", "1", "--calls", "0",
        ],
        None,
    ),
];

#[test]
fn words_ask_for_a_run_or_a_script_that_is_made(rt: HostRuntime) -> Result<(), Fail> {
    for (i, (words, asked)) in CASES.iter().enumerate() {
        let mut all = Vec::new(rt.alloc());
        for word in *words {
            all.push(String::from_str(rt.alloc(), word)?)?;
        }
        assert_eq!(rt; asks(rt.alloc(), &all)?, *asked, "{i}");
    }
    what_words_ask_for();
    Ok(())
}
