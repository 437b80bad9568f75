// A stored example of `schedule::members_at`, which gives its caller a part of a lent table and so has no form for C: the members of a group at some times,
// a line each. The plans are those of site S, with mu 4 for working hours, from 8:00 to 17:00, and with mu 3 for the rest.
#![tactic(auto)]

use dates::Date;
use lookup::Plan;
use schedule::{Time, Window};
use std::io;
use text::Text;

const WORKDAY_STARTS: [u32; 3] = [0, 4, 8];

const WORKDAY_MEMBERS: [u16; 8] = [0, 1, 2, 3, 3, 4, 5, 6];

const RESTDAY_STARTS: [u32; 2] = [0, 7];

const RESTDAY_MEMBERS: [u16; 7] = [0, 1, 2, 3, 4, 5, 6];

// Prints what is asked (year, month, day, minute and group), a colon, and the members.
fn print_members(
    rt: &impl Print,
    year: u16,
    month: u16,
    day: u16,
    minute: u16,
    k: u16,
) -> io::Result<()> {
    let time = Time {
        date: Date {
            year: year as u32,
            month: month as u32,
            day: day as u32,
        },
        minute: minute as u32,
    };
    let window = Window {
        opening: 480,
        closing: 1020,
    };
    let members = schedule::members_at(
        time,
        window,
        k as usize,
        Plan {
            starts: &WORKDAY_STARTS,
            members: &WORKDAY_MEMBERS,
        },
        Plan {
            starts: &RESTDAY_STARTS,
            members: &RESTDAY_MEMBERS,
        },
    );
    let asked = [year, month, day, minute, k];
    let mut line = [0u8; 4096];
    let mut text = Text::new(&mut line);
    text.put_all(b"members");
    text.put_numbers(&asked);
    text.put_all(b":");
    text.put_numbers(members);
    text.put_all(b"\n");
    let length = text.position;
    if let Some(written) = line.get(..length) {
        rt.write_all(written)?;
    }
    Ok(())
}

fn main(rt: HostRuntime) -> io::Result<()> {
    // Thursday, 29 February 2024: before opening, at opening, before closing, at closing.
    print_members(&rt, 2024, 2, 29, 479, 0)?;
    print_members(&rt, 2024, 2, 29, 480, 0)?;
    print_members(&rt, 2024, 2, 29, 1019, 1)?;
    print_members(&rt, 2024, 2, 29, 1020, 0)?;
    // Group 1 is in the first plan alone, and group 2 in neither.
    print_members(&rt, 2024, 2, 29, 1020, 1)?;
    print_members(&rt, 2024, 2, 29, 480, 2)?;
    // Friday to Monday.
    print_members(&rt, 2024, 3, 1, 600, 1)?;
    print_members(&rt, 2024, 3, 2, 600, 0)?;
    print_members(&rt, 2024, 3, 3, 600, 0)?;
    print_members(&rt, 2024, 3, 4, 600, 1)?;
    // No such date, and no such minute.
    print_members(&rt, 1900, 2, 29, 480, 0)?;
    print_members(&rt, 2024, 2, 29, 1440, 0)?;
    Ok(())
}
