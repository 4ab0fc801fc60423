//! The procedures of docs/examples, and what each prints where they are run in this order.

/// The records of their catalogue, with a copy at each of three sites.
pub const RECORDS: &str = "\
record north 100 1:1 2:1 3:1
record south 90 1:1 2:1 3:1
record count 0 1:1 2:1 3:1
record seats 1 1:1 2:1 3:1
record mine 0 1:1 2:1 3:1
record theirs 0 1:1 2:1 3:1
";

const TRANSFER: &str = "\
procedure
read a north
read b south
if a < 40
fail 1
end
write north a - 40
write south b + 40
result a - 40
";

const COUNTER: &str = "\
procedure
read n count
write count n + 1
result n + 1
";

const RESERVATION: &str = "\
procedure
read s seats
read m mine
if m = 0
if s < 1
fail 2
end
write seats s - 1
write mine 1
end
result 1
";

const LATE_RESERVATION: &str = "\
procedure
read s seats
read m theirs
if m = 0
if s < 1
fail 2
end
write seats s - 1
write theirs 1
end
result 1
";

/// Procedures, each with the site where it is run, what it prints, and its status.
pub const RUNS: [(&str, &str, &str, u8); 8] = [
    (TRANSFER, "1", "done 60\n", 0),
    (TRANSFER, "2", "done 20\n", 0),
    (TRANSFER, "3", "failed 1\n", 16),
    (COUNTER, "1", "done 1\n", 0),
    (COUNTER, "3", "done 2\n", 0),
    (RESERVATION, "2", "done 1\n", 0),
    (RESERVATION, "1", "done 1\n", 0),
    (LATE_RESERVATION, "3", "failed 2\n", 16),
];
