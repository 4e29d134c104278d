//! The words of results that no scene leads to: the long words of successes, since their lines use `success_str`, and
//! those of processes that left handles open in ways that a scene cannot spell.

use itoa::Buffer;
use run_model::abort::{AbortDescription, DescriptionText};
use run_model::boxed::Boxed;
use run_model::status::{
    ExecutionResultDescription, FailureDescription, LeakTimeoutResult, SlowTimeoutResult,
};
use std::alloc::Global;
use std::test::Fail;
use text_parts::result_words::{spaced_short_status_str, status_str};

// A result, and its two words.
type Row = (ExecutionResultDescription, &'static str, &'static str);

// Whether the result has these words.
fn has_words(alloc: Global, row: &Row) -> Result<bool, Fail> {
    let (outcome, long, short) = row;
    let mut buffer = Buffer::new();
    let word = status_str(outcome, &mut buffer);
    let is_long = format!(in alloc; "{}{}", word.front, word.back)?.as_str() == *long;
    let mut buffer = Buffer::new();
    let word = spaced_short_status_str(outcome, &mut buffer);
    let is_short = format!(in alloc; "{}{}", word.front, word.back)?.as_str() == *short;
    Ok(is_long && is_short)
}

#[test]
fn successes_have_their_words(rt: HostRuntime) -> Result<(), Fail> {
    let leak = ExecutionResultDescription::Leak {
        result: LeakTimeoutResult::Pass,
    };
    let timeout = ExecutionResultDescription::Timeout {
        result: SlowTimeoutResult::Pass,
    };
    for row in [
        (ExecutionResultDescription::Pass, "PASS", " PASS"),
        (leak, "LEAK", " LEAK"),
        (timeout, "TIMEOUT-PASS", " TMPASS"),
    ] {
        assert!(rt; has_words(rt.alloc(), &row)?);
    }
    Ok(())
}

// A result of a process that was ended so.
fn aborted(alloc: Global, abort: AbortDescription) -> Result<ExecutionResultDescription, Fail> {
    Ok(ExecutionResultDescription::Fail {
        failure: FailureDescription::Abort {
            abort: Boxed::new(alloc, abort)?,
        },
        leaked: true,
    })
}

#[test]
fn aborts_have_their_words(rt: HostRuntime) -> Result<(), Fail> {
    let named = AbortDescription::UnixSignal {
        signal: 11,
        name: Some(DescriptionText::new(rt.alloc(), "SEGV")?),
    };
    let status = AbortDescription::WindowsNtStatus {
        code: -1,
        message: None,
    };
    for (abort, long, short) in [
        (named, "SIGSEGV", " SEGV"),
        (status, "ABORT", " ABORT"),
        (AbortDescription::WindowsJobObject, "ABORT", " ABORT"),
    ] {
        assert!(rt; has_words(rt.alloc(), &(aborted(rt.alloc(), abort)?, long, short))?);
    }
    Ok(())
}
