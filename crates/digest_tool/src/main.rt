//! Digests bytes as often as it is told, as the program makes its digests: `scripts/measure` takes the time of it.
#![tactic(auto)]

ghost use Rattle.std.specs.Prelude.{◌≡◌};
ghost use Rattle.tape_base.specs.Digest.{digest_of};

use std::alloc::{AllocError, Global};
use std::process::ExitCode;
use std::{env, io};
use tape_base::Digest;

// The status of words that are not numbers, or fewer than two.
const USAGE: u8 = 2;

// The digest of the bytes, made so many times, and at least once.
fn digest_often(bytes: &[u8], count: u32) -> Digest
    ensures { result ≡ digest_of bytes.now }
{
    let mut digest = Digest::of(bytes);
    for _ in 1..count {
        digest = Digest::of(bytes);
    }
    digest
}

// How many bytes the messages have, and how often each is digested.
fn numbers(alloc: Global, words: &[String]) -> Result<Option<(Vec<u32>, u32)>, AllocError> {
    let Some((last, firsts)) = words.split_last() else {
        return Ok(None);
    };
    let mut sizes = Vec::new(alloc);
    for word in firsts {
        let Ok(size) = word.parse::<u32>() else {
            return Ok(None);
        };
        sizes.push(size)?;
    }
    match last.parse::<u32>() {
        Ok(count) if !sizes.is_empty() => Ok(Some((sizes, count))),
        _ => Ok(None),
    }
}

fn main(rt: HostRuntime) -> io::Result<ExitCode> {
    let alloc = rt.alloc();
    let words: Vec<String> = env::args(&rt)?.skip(1).collect(alloc)?;
    let Some((sizes, count)) = numbers(alloc, &words)? else {
        eprintln!(rt;
            "digest_tool SIZE.. COUNT: digests SIZE bytes, each `a`, COUNT times, and prints the digest"
        )?;
        return Ok(ExitCode::from(USAGE));
    };
    for size in &sizes {
        let bytes = Vec::from_elem(alloc, b'a', *size as usize)?;
        let digest = digest_often(&bytes, count);
        println!(rt; "{}", hex::encode(alloc, &digest.0)?)?;
    }
    Ok(ExitCode::SUCCESS)
}
