// The applications' records: refusals 1 and 6.
ghost use Rattle.std.specs.Prelude.{◌≡◌, ◌+◌, ◌*◌, ◌≤◌, ◌<◌, ◌^◌, length};
ghost use Rattle.rules.specs.Names.{year_width, app_width};
ghost use Rattle.rules.specs.Reading.{fault_in, reading_in};
ghost use Rattle.rules.specs.Refusals.{record_fault, app_fault};
ghost use Rattle.layout.specs.Layout.{Room, application_shown};
ghost use Rattle.records.specs.Numbers.{numbers_of, draw_of};
ghost use Rattle.records.specs.Records.{apps_of};

use super::order::in_order;
use layout::application::Application;
use layout::{application, year};
use rules::{Refusal, Rule, Sections};

// What is wrong with an application's numbers, its draw apart, in a file of so many delivery years and technologies.
fn numbers_fault(
    year_recs: &[u8],
    deliveries: usize,
    technologies: usize,
    x: Application,
) -> Result<(), Rule>
    requires { deliveries * year_width ≤ length year_recs.now }
    ensures { fault_in result ≡ numbers_of year_recs.now deliveries technologies (application_shown x) }
{
    if technologies <= x.technology || deliveries <= x.year {
        return Err(Rule::AppBroken);
    }
    let most_days = year::days(year_recs, x.year);
    if x.days == 0
        || most_days < x.days
        || x.capacity == 0
        || names::LARGEST_CAPACITY < x.capacity
    {
        return Err(Rule::AppBroken);
    }
    Ok(())
}

// What is wrong with the draw of application a: it may not be that of an earlier one.
fn draw_fault(recs: &[u8], a: usize) -> Result<(), Rule>
    requires { Room recs.now app_width a }
    ensures { fault_in result ≡ draw_of recs.now a }
{
    let draw = application::draw(recs, a);
    for earlier in 0..a {
        if application::draw(recs, earlier) == draw {
            return Err(Rule::AppBroken);
        }
    }
    Ok(())
}

// What is wrong with application a, beside the years' records.
fn app_fault(
    year_recs: &[u8],
    deliveries: usize,
    technologies: usize,
    recs: &[u8],
    a: usize,
) -> Result<(), Rule>
    requires { (deliveries * year_width ≤ length year_recs.now) × (a * app_width ≤ length recs.now) }
    ensures { fault_in result ≡ record_fault recs.now app_width (app_fault year_recs.now deliveries technologies recs.now) a }
{
    if recs.len() - a * names::APP_WIDTH < names::APP_WIDTH {
        return Err(Rule::EndsEarly);
    }
    numbers_fault(
        year_recs,
        deliveries,
        technologies,
        application::read(recs, a),
    )?;
    draw_fault(recs, a)
}

// The applications' records, in the part of the file that they occupy and that starts at `base`. If nothing is wrong, `done` is the answer.
pub fn applications(
    year_recs: &[u8],
    recs: &[u8],
    base: usize,
    done: Sections,
) -> Result<Sections, Refusal>
    requires { (done.deliveries * year_width ≤ length year_recs.now) × (base + length recs.now < 2 ^ 63) }
    ensures { reading_in result ≡ apps_of year_recs.now recs.now base done }
{
    in_order(done.applications, base, names::APP_WIDTH, |a| {
        app_fault(year_recs, done.deliveries, done.technologies, recs, a)
    })?;
    Ok(done)
}
