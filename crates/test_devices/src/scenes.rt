//! Scenes of the tests, and their reports.

/// A test that passed.
pub const DONE: &str =
    "done\t-\talpha\tt1\tnever\tnever\tpass\tinitial=2 finished=1 passed=1\t1\tpass\t5000000\t0\tsplit\t\t\t-\t-";

/// The end of a run of two tests.
pub const END: &str = "end\t1520000000\tinitial=2 finished=2 passed=1 failed=1\t0\t-";

/// Two tests, one of which fails, and the end of the run.
pub const TWO_TESTS: &str = "config\tfinal\tfail\n\
run\t00000000-0000-4000-8000-000000000001\tdefault\t2\t1\t-\n\
done\t-\talpha\tt1\tnever\tnever\tpass\tinitial=2 finished=1 passed=1\t1\tpass\t5000000\t0\tsplit\t\t\t-\t-\n\
done\t-\talpha\tmod::t2\tnever\tnever\tpass\tinitial=2 finished=2 passed=1 failed=1\t1\t\
fail:1\t1500000000\t0\tsplit\t\t\t-\t-\n\
end\t1520000000\tinitial=2 finished=2 passed=1 failed=1\t0\t-\n";

/// The report of `TWO_TESTS`.
pub const OF_TWO_TESTS: &str = "------------
 Nextest run ID 00000000-0000-4000-8000-000000000001 with nextest profile: default
    Starting 2 tests across 1 binary
        PASS [   0.005s] alpha t1
        FAIL [   1.500s] alpha mod::t2
------------
     Summary [   1.520s] 2 tests run: 1 passed, 1 failed, 0 skipped
        FAIL [   1.500s] alpha mod::t2
";

/// The records of `TWO_TESTS`.
pub const STORED_OF_TWO_TESTS: &str = "5:alpha,2:t1,4:PASS,0:,\n5:alpha,7:mod::t2,4:FAIL,0:,\n";

/// A run that is cancelled twice.
pub const CANCELLED: &str = "cancel\t0\t0\tinterrupt\n\
cancel\t0\t0\tsignal\n\
done\t-\ta\tt1\tnever\timmediate\tpass\tinitial=2 finished=1 failed=1\t1\t\
fail:1\t1000000000\t0\tsplit\tboom\\n\t\t-\t-\n\
end\t2000000000\tinitial=2 finished=1 failed=1 cancel=signal\t0\t-\n";

/// The report of `CANCELLED`.
pub const OF_CANCELLED: &str = "  Cancelling due to interrupt
  Cancelling due to signal
        FAIL [   1.000s] a t1
------------
     Summary [   2.000s] 1/2 tests run: 0 passed, 1 failed, 0 skipped
warning: 1/2 tests were not run due to signal
";

/// A test that is asked for its state.
pub const ASKED: &str =
    "answer-test\t0\t1\t-\ta\tt1\t1\t1\trunning:42:1500000000:-\t-\tsplit\thi\\n\t\t-\t-\n";

/// The report of `ASKED`.
pub const OF_ASKED: &str = "
* 1/1:    a t1
  status: test running for 1.500s as PID 42
  stdout:
    hi


";
