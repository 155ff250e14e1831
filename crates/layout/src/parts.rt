// The part of the file that a section's records occupy: they follow its count, up to the next section's; the bids' are the rest of the file.
ghost use Rattle.std.specs.Prelude.{◌≡◌, ◌+◌, ◌≤◌, length};
ghost use Rattle.rules.specs.Names.{count_width};
ghost use Rattle.layout.specs.Layout.{years_in, pots_in, technologies_in, applications_in, bids_in};

use crate::pot::Pots;
use crate::technology::Technologies;
use rules::Sections;

pub fn years(file: &[u8], sections: Sections) -> &[u8]
    requires { (count_width ≤ sections.pots_at) × (sections.pots_at ≤ length file.now) }
    ensures { result.now ≡ years_in file.now sections }
{
    &file[names::COUNT_WIDTH..sections.pots_at]
}

pub fn pots(file: &[u8], sections: Sections) -> Pots<'_>
    requires { (sections.pots_at + count_width ≤ sections.technologies_at) × (sections.technologies_at ≤ length file.now) }
    ensures { (result.recs.now ≡ pots_in file.now sections) × ((result.years ≡ sections.years) × (result.gained ≡ sections.gained)) }
{
    Pots {
        recs: &file[sections.pots_at + names::COUNT_WIDTH..sections.technologies_at],
        years: sections.years,
        gained: sections.gained,
    }
}

pub fn technologies(file: &[u8], sections: Sections) -> Technologies<'_>
    requires { (sections.technologies_at + count_width ≤ sections.applications_at) × (sections.applications_at ≤ length file.now) }
    ensures { (result.recs.now ≡ technologies_in file.now sections) × (result.years ≡ sections.years) }
{
    Technologies {
        recs: &file[sections.technologies_at + names::COUNT_WIDTH..sections.applications_at],
        years: sections.years,
    }
}

pub fn applications(file: &[u8], sections: Sections) -> &[u8]
    requires { (sections.applications_at + count_width ≤ sections.bids_at) × (sections.bids_at ≤ length file.now) }
    ensures { result.now ≡ applications_in file.now sections }
{
    &file[sections.applications_at + names::COUNT_WIDTH..sections.bids_at]
}

pub fn bids(file: &[u8], sections: Sections) -> &[u8]
    requires { sections.bids_at + count_width ≤ length file.now }
    ensures { result.now ≡ bids_in file.now sections }
{
    &file[sections.bids_at + names::COUNT_WIDTH..]
}
