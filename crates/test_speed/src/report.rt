// Times, and the lines that tell them.
use std::io;
use std::time::CpuClock;

/// One measurement: how many things were done, in which time, and what came of it.
#[derive(Clone, Copy)]
pub(crate) struct Measurement<'a> {
    /// What was done.
    pub(crate) what: &'a str,
    /// How many rules the table has at the most.
    pub(crate) rules: u32,
    /// How often it was done.
    pub(crate) count: u32,
    /// The processor time of all of them, in microseconds.
    pub(crate) time: u64,
    /// How many came out so.
    pub(crate) found: usize,
    pub(crate) so: &'a str,
}

/// The processor time that the program has used, in microseconds.
pub(crate) fn used(rt: &impl CpuClock) -> io::Result<u64> {
    let time = rt.process_cpu_time()?;
    let seconds = time.as_secs().saturating_mul(1_000_000);
    Ok(seconds.saturating_add(u64::from(time.subsec_micros())))
}

/// The processor time since a moment, both in microseconds.
pub(crate) fn since(rt: &impl CpuClock, start: u64) -> io::Result<u64> {
    Ok(used(rt)?.saturating_sub(start))
}

impl Measurement<'_> {
    /// How often it was done in a second.
    fn rate(&self) -> u64 {
        u64::from(self.count) * 1_000_000 / self.time.max(1)
    }

    /// Says the measurement, as a line.
    pub(crate) fn say(&self, rt: &impl Print) -> io::Result<()> {
        let Measurement {
            what,
            rules,
            count,
            time,
            found,
            so,
        } = *self;
        let milliseconds = time / 1_000;
        print!(rt; "{rules} rules, {what}: {count} in {milliseconds} ms, ")?;
        println!(rt; "{} a second, {found} {so}", self.rate())
    }
}

/// Says how many times as long one time is as another, in hundredths.
pub(crate) fn say_ratio(rt: &impl Print, what: &str, time: u64, other: u64) -> io::Result<()> {
    let hundredths = time.saturating_mul(100) / other.max(1);
    let whole = hundredths / 100;
    let part = hundredths % 100;
    println!(rt; "{what}: {whole}.{part:02}")
}

/// Says what was played, with how many records in which processor time, in microseconds.
pub(crate) fn say_records(rt: &impl Print, what: &str, records: u32, time: u64) -> io::Result<()> {
    let milliseconds = time / 1_000;
    let rate = u64::from(records) * 1_000_000 / time.max(1);
    println!(rt; "{what}: {records} records in {milliseconds} ms, {rate} a second")
}
