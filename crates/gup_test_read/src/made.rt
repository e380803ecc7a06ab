use gup_make::make_text;
use gup_read::read_script;
use std::test::Fail;

/// How many bytes made texts have, and what they come to if each byte is put on at 31 times what was before: by a second
/// program, in another language, of the same recipe.
const MADE: [(u64, usize, u64); 9] = [
    (1, 3524, 13924461711847438859),
    (2, 3621, 6441995331079803695),
    (3, 3502, 6482109071731776459),
    (4, 3628, 3568297109851433166),
    (5, 3417, 14799822084052555564),
    (6, 3549, 13732634293848586705),
    (7, 3511, 1862678108311395587),
    (8, 3581, 13861968688282256902),
    (18446744073709551615, 3478, 9490299734521400956),
];

/// The first lines of the first round that is made from 1.
const FIRST_LINES: &str =
    "on d2 take h2\non t1 get g1 25\non t1 put g1\non t2 discard 38 1\non t3 store 51.154 902\non t4 load 58.507\non d1 out h1 492 40 3\non d2 out h2 1492 18 8\non m move p 20 movable\non t1 store 13.478 410\n";

fn sum_of(text: &[u8]) -> u64 {
    let mut sum = 0u64;
    for byte in text {
        sum = sum.wrapping_mul(31).wrapping_add(u64::from(*byte));
    }
    sum
}

#[test]
fn made_texts_are_scripts(rt: HostRuntime) -> Result<(), Fail> {
    for (n, length, sum) in MADE {
        let text = make_text(rt.alloc(), n).or(Err("memory"))?;
        assert_eq!(rt; text.len(), length);
        assert_eq!(rt; sum_of(text.as_slice()), sum);
        assert!(rt; read_script(rt.alloc(), text.as_slice()).is_ok());
    }
    Ok(())
}

#[test]
fn the_first_lines_that_are_made(rt: HostRuntime) -> Result<(), Fail> {
    let text = make_text(rt.alloc(), 1).or(Err("memory"))?;
    let lines = FIRST_LINES.as_bytes();
    assert!(rt;
        text.as_slice()
            .windows(lines.len())
            .any(|piece| piece == lines)
    );
    Ok(())
}
