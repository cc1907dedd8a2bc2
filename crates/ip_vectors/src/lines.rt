//! Lines and their answers, by the plain program and by `run`.
use crate::checks::assert_that;
use check_reference::plain_answers;
use ipexts_tool::run;
use std::alloc::Global;
use std::process::Abort;
use std::test::Fail;

/// Returns whether both give these answers to the input.
fn is_answered(alloc: Global, input: &[u8], answers: &[u8]) -> Result<bool, Fail> {
    let plain = plain_answers(alloc, input)?;
    let mut left = input;
    let mut output = Vec::new(alloc);
    run(alloc, &mut left, &mut output)?;
    Ok(plain.as_slice() == answers && output.as_slice() == answers)
}

/// Checks that both answer each input as its row says.
fn check(rt: &impl Abort, alloc: Global, rows: &[(&[u8], &[u8])]) -> Result<(), Fail> {
    for (input, answers) in rows {
        assert_that(rt, input, is_answered(alloc, input, answers)?);
    }
    Ok(())
}

#[test]
fn chains(rt: HostRuntime) -> Result<(), Fail> {
    let rows: [(&[u8], &[u8]); 5] = [
        (
            b"exts6 60 2b00000000000000",
            b"0 dstopts 8\nnext 43 rest 0\nfault len 8 of 0 Slice Ipv6ExtHeader at 8 in Ipv6RouteHeader\n",
        ),
        (b"exts6 17 00010203\n", b"next 17 rest 4\nok\n"),
        (
            b"exts6 0 0000000000000000\n",
            b"0 hopopt 8\nnext 0 rest 0\nfault HopByHopNotAtStart in Ipv6HopByHopHeader\n",
        ),
        (
            b"exts6 51 110000000000000000000000\n",
            b"next 51 rest 12\nfault ZeroPayloadLen in IpAuthHeader\n",
        ),
        (
            b"exts6 44 2c00000000000001110000\n",
            b"0 frag 8\nnext 44 rest 3\nfault len 8 of 3 Slice Ipv6FragHeader at 8 in Ipv6FragHeader\n",
        ),
    ];
    check(&rt, rt.alloc(), &rows)
}

#[test]
fn ipv4_headers(rt: HostRuntime) -> Result<(), Fail> {
    let rows: [(&[u8], &[u8]); 4] = [
        (
            b"exts4 51 3301000000000000000000001101\n",
            b"0 auth 12\nnext 51 rest 2\nok\n",
        ),
        (
            b"exts4 51 110000000000000000000000\n",
            b"next 51 rest 12\nfault ZeroPayloadLen\n",
        ),
        (
            b"exts4 51 -\n",
            b"next 51 rest 0\nfault len 12 of 0 Slice IpAuthHeader at 0\n",
        ),
        (b"exts4 0 -\n", b"next 0 rest 0\nok\n"),
    ];
    check(&rt, rt.alloc(), &rows)
}

#[test]
fn chains_that_are_written_again(rt: HostRuntime) -> Result<(), Fail> {
    let rows: [(&[u8], &[u8]); 6] = [
        (
            b"rewrite6 44 11ff00e101020304\n",
            b"next 17 rest 0\nwritten 110000e101020304\nok\n",
        ),
        (
            b"rewrite6 44 1100000601020304\n",
            b"next 17 rest 0\nwritten 1100000001020304\nok\n",
        ),
        (
            b"rewrite6 51 1101ffff0000000100000002\n",
            b"next 17 rest 0\nwritten 110100000000000100000002\nok\n",
        ),
        (
            b"rewrite6 60 3c000000000000001100000000000000\n",
            b"next 60 rest 8\nwritten 3c00000000000000\nok\n",
        ),
        (
            b"rewrite6 0 -\n",
            b"next 0 rest 0\nwritten -\nfault len 8 of 0 Slice Ipv6ExtHeader at 0 in Ipv6HopByHopHeader\n",
        ),
        (
            b"rewrite6 60 2b00000000000000\n",
            b"next 43 rest 0\nwritten 2b00000000000000\nfault len 8 of 0 Slice Ipv6ExtHeader at 8 in Ipv6RouteHeader\n",
        ),
    ];
    check(&rt, rt.alloc(), &rows)
}

#[test]
fn runs_that_are_written_again(rt: HostRuntime) -> Result<(), Fail> {
    let rows: [(&[u8], &[u8]); 4] = [
        (
            b"rewriteall6 44 2cff000000000000110000e101020304\n",
            b"runs 2 next 17 rest 0\nwritten 2c00000000000000110000e101020304\nok\n",
        ),
        (
            b"rewriteall6 44 2c00000000000000\n",
            b"runs 2 next 44 rest 0\nwritten 2c00000000000000\nfault len 8 of 0 Slice Ipv6FragHeader at 8 in Ipv6FragHeader\n",
        ),
        (
            b"rewriteall6 44 2c0000000000000000000000000000001100000000000000\n",
            b"runs 2 next 0 rest 8\nwritten 2c000000000000000000000000000000\nfault HopByHopNotAtStart in Ipv6HopByHopHeader\n",
        ),
        (
            b"rewriteall6 17 00\n",
            b"runs 1 next 17 rest 1\nwritten -\nok\n",
        ),
    ];
    check(&rt, rt.alloc(), &rows)
}

#[test]
fn ipv4_packets_dissected(rt: HostRuntime) -> Result<(), Fail> {
    let rows: [(&[u8], &[u8]); 5] = [
        (
            b"dissect 4500001800010000401100007f0000017f00000101020304ff\n",
            b"ipv4 base 20 stated 24\nfragment none\nnext 17 rest 4\nmissing 0 padding 1\npayload\n",
        ),
        (
            b"dissect 4500001801022001403300007f0000017f00000111010000\n",
            b"ipv4 base 20 stated 24\nfragment middle id 258 offset 8\nnext 51 rest 4\nmissing 0 padding 0\nlater fragment\n",
        ),
        (
            b"dissect 4500002400010000403300007f0000017f00000111010000\n",
            b"ipv4 base 20 stated 36\nfragment none\nnext 51 rest 4\nmissing 12 padding 0\ntruncated len 12 of 4 Slice IpAuthHeader at 20\n",
        ),
        (
            b"dissect 4500001800010000403300007f0000017f000001110100000000000100000002\n",
            b"ipv4 base 20 stated 24\nfragment none\nnext 51 rest 4\nmissing 0 padding 8\nfault len 12 of 4 Ipv4HeaderTotalLen IpAuthHeader at 20\n",
        ),
        (
            b"dissect 4500\n",
            b"truncated len 20 of 2 Slice Ipv4Header at 0\n",
        ),
    ];
    check(&rt, rt.alloc(), &rows)
}

#[test]
fn ipv6_packets_dissected(rt: HostRuntime) -> Result<(), Fail> {
    let rows: [(&[u8], &[u8]); 5] = [
        (
            b"dissect 60000000000c00400000000000000000000000000000000000000000000000000000000000000000110001040000000001020304\n",
            b"ipv6 base 40 stated 52\n40 hopopt 8\nfragment none\nnext 17 rest 4\nmissing 0 padding 0\npayload\n",
        ),
        (
            b"dissect 6000000000102c4000000000000000000000000000000000000000000000000000000000000000003c00000a000001001100000000000000\n",
            b"ipv6 base 40 stated 56\n40 frag 8\nfragment last id 256 offset 8\nnext 60 rest 8\nmissing 0 padding 0\nlater fragment\n",
        ),
        (
            b"dissect 6000000000182b4000000000000000000000000000000000000000000000000000000000000000001102000000000000\n",
            b"ipv6 base 40 stated 64\nfragment none\nnext 43 rest 8\nmissing 16 padding 0\ntruncated len 24 of 8 Slice Ipv6ExtHeader at 40 in Ipv6RouteHeader\n",
        ),
        (
            b"dissect 6000000000083c40000000000000000000000000000000000000000000000000000000000000000011010000000000000000000000000000\n",
            b"ipv6 base 40 stated 48\nfragment none\nnext 60 rest 8\nmissing 0 padding 8\nfault len 16 of 8 Ipv6HeaderPayloadLen Ipv6ExtHeader at 40 in Ipv6DestOptionsHeader\n",
        ),
        (b"dissect 7000\n", b"fault UnsupportedIpVersion 7\n"),
    ];
    check(&rt, rt.alloc(), &rows)
}

#[test]
fn bad_lines(rt: HostRuntime) -> Result<(), Fail> {
    let rows: [(&[u8], &[u8]); 2] = [
        (b"exts6 256 00\n", b"bad line\n"),
        (b"\nexts6 17 -\n", b"bad line\nnext 17 rest 0\nok\n"),
    ];
    check(&rt, rt.alloc(), &rows)
}

#[test]
fn many_lines(rt: HostRuntime) -> Result<(), Fail> {
    let mut input = Vec::new(rt.alloc());
    let mut answers = Vec::new(rt.alloc());
    for _ in 0..400u16 {
        input.extend_from_slice(b"exts6 17 00010203\n")?;
        answers.extend_from_slice(b"next 17 rest 4\nok\n")?;
    }
    assert!(rt; is_answered(rt.alloc(), input.as_slice(), answers.as_slice())?);
    Ok(())
}
