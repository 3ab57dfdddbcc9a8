// The time call: a FILETIME at an address, as two doubles.
#![tactic(auto)]

ghost use Rattle.std.specs.Prelude.{◌≡◌, ◌<◌, ◌^◌};
ghost use Rattle.case.specs.Case.{case_of};
ghost use Rattle.base.specs.Refusal.{refusal_number};
ghost use Rattle.times.specs.Time.{judged};
ghost use Rattle.times.specs.Call.{time_of, no_time, time_told, TimeAnswer};

use base::Refusal;

const TICKS_PER_SECOND: u64 = 10000000;

// 2^63.
const TICKS_LIMIT: u64 = 0x8000000000000000;

// Whole seconds since 1 January 1601 UTC, and the ticks of 100 nanoseconds left over; both are whole numbers.
#[repr(C)]
#[derive(Clone, Copy)]
pub struct Time {
    pub seconds: f64,
    pub ticks: f64,
}

// The number, 0 if done, and the time, 0 and 0 if refused, as C reads them.
#[repr(C)]
#[derive(Clone, Copy)]
pub struct TimeRead {
    pub number: u64,
    pub time: Time,
}

impl From<Refusal> for TimeRead {
    ghost from_gives = { λ r t. t ≡ no_time (refusal_number r) };

    fn from(refusal: Refusal) -> TimeRead {
        refuse(refusal.number())
    }
}

// The time in the 8 bytes at an address.
pub fn read_time(sheet: &[u8], image: &[u8], pagefile: &[u8], address: u64) -> TimeRead
    ensures { TimeAnswer (case_of sheet.now image.now pagefile.now) address result }
{
    let mut field = [0u8; 8];
    let read = reading::read_bytes(sheet, image, pagefile, address, 8, &mut field);
    if read.number != 0 {
        return refuse(read.number);
    }
    match judge(words::word_at(&field, 0)) {
        Ok(time) => TimeRead { number: 0, time },
        Err(refusal) => refusal.into(),
    }
}

// 60, 61 or the time.
fn judge(ticks: u64) -> Result<Time, Refusal>
    ensures { result ≡ time_told (judged ticks) }
{
    if ticks == 0 {
        return Err(Refusal::TimeZero);
    }
    if TICKS_LIMIT <= ticks {
        return Err(Refusal::TimeTooLarge);
    }
    Ok(split(ticks))
}

// A time of none, with the number of what is at fault.
fn refuse(number: u64) -> TimeRead
    ensures { result ≡ no_time number }
{
    TimeRead {
        number,
        time: split(0),
    }
}

// The casts are defined only where nothing is lost.
fn split(ticks: u64) -> Time
    requires { ticks < 2 ^ 63 }
    ensures { result ≡ time_of ticks }
{
    let seconds = ticks / TICKS_PER_SECOND;
    let rest = ticks % TICKS_PER_SECOND;
    Time {
        seconds: seconds as f64,
        ticks: rest as f64,
    }
}
