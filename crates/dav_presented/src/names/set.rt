//! Sets of the names of elements, in which a name is found in the time of a search in order.
ghost use Rattle.std.specs.Prelude.{◌≡◌, ◌||◌, OnOk};
ghost use Rattle.dav_core.specs.Element.{ElementTree};
ghost use Rattle.dav_presented.specs.Names.{full_name, is_same};
ghost use Rattle.dav_presented.specs.NameSets.{has};

use crate::names::space_of;
use dav_core::element::Element;
use dav_core::errors::NoMemory;
use std::cmp::Ordering;
use std::collections::BTreeSet;
use std::marker::Model;

/// The name of an element: its namespace, and its local name (Namespaces in XML 1.0, section 2.1).
#[derive(Drop)]
pub(crate) struct Name<'a> {
    space: &'a str,
    local: &'a str,
}

impl<'a> Model for Name<'a> {
    ghost use Rattle.dav_presented.specs.Names.{FullName};

    ghost Value = { FullName };

    ghost view = { λ n. (n.space.now, n.local.now) };
}

impl<'a> Name<'a> {
    /// The name of an element, whatever its prefix is.
    pub(crate) fn of(element: &'a Element) -> Name<'a>
        ensures { result ≡ full_name element.now }
    {
        Name {
            space: space_of(element),
            local: element.name.as_str(),
        }
    }
}

impl<'a> PartialEq for Name<'a> {
    ghost use Rattle.std.specs.Cmp.{eq_by_cmp_equiv, partial_equiv_from_equiv};
    ghost use Rattle.std.specs.Ordering.{eq_by_cmp};
    ghost use Rattle.dav_presented.specs.Names.{full_name_cmp, full_name_total};

    ghost eq = { eq_by_cmp full_name_cmp };

    ghost laws = { partial_equiv_from_equiv (eq_by_cmp_equiv full_name_total) };

    fn eq(&self, other: &Name<'a>) -> bool {
        self.cmp(other).is_eq()
    }
}

impl<'a> Eq for Name<'a> {
    ghost use Rattle.std.specs.Cmp.{eq_by_cmp_equiv};
    ghost use Rattle.dav_presented.specs.Names.{full_name_total};

    ghost laws = { eq_by_cmp_equiv full_name_total };
}

impl<'a> PartialOrd for Name<'a> {
    ghost use Rattle.std.specs.Prelude.{refl};
    ghost use Rattle.std.specs.Cmp.{partial_order_from_agreeing_total};
    ghost use Rattle.std.specs.Ordering.{as_partial_cmp};
    ghost use Rattle.dav_presented.specs.Names.{full_name_cmp, full_name_total};

    ghost partial_cmp = { as_partial_cmp full_name_cmp };

    ghost laws = { partial_order_from_agreeing_total full_name_cmp full_name_total (λ x y. refl) (λ x y. refl) };

    fn partial_cmp(&self, other: &Name<'a>) -> Option<Ordering> {
        Some(self.cmp(other))
    }
}

impl<'a> Ord for Name<'a> {
    ghost use Rattle.std.specs.Prelude.{refl};
    ghost use Rattle.dav_presented.specs.Names.{full_name_cmp, full_name_total};

    ghost cmp = { full_name_cmp };

    ghost total = { full_name_total };

    ghost matches_partial_cmp = { λ x y. refl };

    ghost matches_eq = { λ x y. refl };

    fn cmp(&self, other: &Name<'a>) -> Ordering {
        let first = self.space.as_bytes().cmp(&other.space.as_bytes());
        first.then(self.local.as_bytes().cmp(&other.local.as_bytes()))
    }
}

/// Whether the name of an element is in a set.
pub(crate) fn has_name<'a>(names: &BTreeSet<Name<'a>>, element: &'a Element) -> bool
    ensures { result ≡ has element.now names.now }
{
    names.contains(&Name::of(element))
}

/// Adds the name of an element to a set.
pub(crate) fn add_name<'a>(
    names: &mut BTreeSet<Name<'a>>,
    element: &'a Element,
) -> Result<(), NoMemory>
    ensures { OnOk result ((e : ElementTree)
        → has e names.new ≡ (is_same e element.now || has e names.old)) }
{
    names.insert(Name::of(element))?;
    Ok(())
}
