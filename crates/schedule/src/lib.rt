// The members of a group in one of a site's two plans: the first in working hours, the second for the rest.
//
// The definitions are in specs/Schedule. Callers cite proofs/Agreement: the part and the companion's answer agree, 18 comes before 19, and 14 is asked of the
// chosen plan alone; `scheduled_same` of proofs/Answers makes an equation of the companion's answer.
#![tactic(auto)]

ghost use Rattle.std.specs.Prelude.{◌≡◌};
ghost use Rattle.lookup.specs.Lookup.{members_of, looked_of};
ghost use Rattle.schedule.specs.Schedule.{minutes_fit, is_workday, is_working, choice_of, part_of, scheduled_of};
ghost use Rattle.schedule.specs.Answers.{scheduled_answer};

use dates::Date;
use image::{Question, Refusal};
use lookup::Plan;

// The minutes of a day.
const DAY_MINUTES: u32 = 1440;

// A date and a minute of that day: any numbers.
#[derive(Clone, Copy)]
pub struct Time {
    pub date: Date,
    pub minute: u32,
}

// The working hours of a site, from the opening minute up to the closing minute: any numbers.
#[derive(Clone, Copy)]
pub struct Window {
    pub opening: u32,
    pub closing: u32,
}

// The plan that a time asks for.
#[derive(Clone, Copy, PartialEq, Eq)]
pub enum Day {
    Workday,
    Restday,
}

// What the companion finds: the plan, and the count of the group's members in it.
#[derive(Clone, Copy)]
pub struct Scheduled {
    pub day: Day,
    pub count: usize,
}

// Question 19.
fn minutes_fit(t: Time, w: Window) -> bool
    ensures { result ≡ minutes_fit t w }
{
    (t.minute < DAY_MINUTES) & ((w.closing <= DAY_MINUTES) & (w.opening <= w.closing))
}

// Monday to Friday.
fn is_workday(t: Time) -> bool
    ensures { result ≡ is_workday t }
{
    match t.date.weekday() {
        Some(weekday) => weekday < 5,
        None => false,
    }
}

// Monday to Friday, in the window.
fn is_working(t: Time, w: Window) -> bool
    ensures { result ≡ is_working t w }
{
    is_workday(t) & ((w.opening <= t.minute) & (t.minute < w.closing))
}

// Questions 18 and 19, and the plan.
fn choose(t: Time, w: Window) -> Result<Day, Refusal>
    ensures { result ≡ choice_of t w }
{
    if !t.date.exists() {
        return Err(Question::Date.refused());
    }
    if !minutes_fit(t, w) {
        return Err(Question::Minutes.refused());
    }
    Ok(if is_working(t, w) {
        Day::Workday
    } else {
        Day::Restday
    })
}

// The members of group k at a time: a part of the chosen plan's member table itself, not a copy. Empty where 18, 19 or 14 applies.
pub fn members_at<'a>(
    t: Time,
    w: Window,
    k: usize,
    workday: Plan<'a>,
    restday: Plan<'a>,
) -> &'a [u16]
    ensures { result.now ≡ part_of (choice_of t w) (members_of workday.entry.starts.now workday.entry.members.now k) (members_of restday.entry.starts.now restday.entry.members.now k) }
{
    match choose(t, w) {
        Ok(Day::Workday) => workday.members(k),
        Ok(Day::Restday) => restday.members(k),
        Err(_) => &restday.members[0..0],
    }
}

// The companion of `members_at`, on the same arguments: 18, 19 or 14 with place 0, or the plan and the count of the members.
pub fn find_group_at(
    t: Time,
    w: Window,
    k: usize,
    workday: Plan,
    restday: Plan,
) -> Result<Scheduled, Refusal>
    ensures { scheduled_answer result ≡ scheduled_answer (scheduled_of (choice_of t w) (looked_of workday.entry.starts.now workday.entry.members.now k) (looked_of restday.entry.starts.now restday.entry.members.now k)) }
{
    let day = choose(t, w)?;
    let count = match day {
        Day::Workday => workday.find_group(k)?,
        Day::Restday => restday.find_group(k)?,
    };
    Ok(Scheduled { day, count })
}
