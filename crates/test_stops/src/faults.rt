// Courses of whose disk a call fails once, and files that are forged.
use crate::courses::Course;
use crate::files::{kept_file, made_file};
use crate::forged::forge_all;
use crate::single_faults::{fault_openings, fault_steps};
use std::fs::Files;
use std::{fs, io};

/// By this an archive in memory comes to the layout of a made file.
const TO_LAYOUT_2: &[u8] = b"upgrade\n";

// Fails calls once, and opens forged files, and says whether all is well.
pub(crate) fn try_faults<R: Files + Print + AllocGlobal>(rt: &R) -> io::Result<bool> {
    let made = made_file(rt.alloc())?;
    let faults = fail_once(
        rt,
        "commands",
        &Course::read(rt, "faults", &made, TO_LAYOUT_2)?,
        10,
    )?;
    let upgrade = fail_once(rt, "an upgrade", &kept_upgrade(rt)?, 3)?;
    let forged = forge_all(rt, &made)?;
    Ok(faults && upgrade && forged)
}

// The upgrade of the kept file.
fn kept_upgrade<R: Files + AllocGlobal>(rt: &R) -> io::Result<Course> {
    let kept = kept_file(rt, "kept")?;
    let script = fs::read(rt, "kept.script")?;
    Course::read(rt, "upgrade", &kept, &script)
}

// Has each call of the disk fail once over the steps of a course, and in openings, and says whether
// all is well.
fn fail_once<R: Print + AllocGlobal>(
    rt: &R,
    name: &str,
    course: &Course,
    fewest: u32,
) -> io::Result<bool> {
    let steps = fault_steps(rt.alloc(), course)?;
    let openings = fault_openings(rt.alloc(), course, fewest)?;
    match steps.or(openings) {
        None => {
            println!(rt; "faults in {name}: each is told, and leaves the state before or after")?
        }
        Some(at) => println!(rt; "faults in {name}: one at {at} is not as it should be")?,
    }
    Ok(steps.or(openings).is_none())
}
