// Whether names and contacts of two lines are the same.
ghost use Rattle.std.specs.Prelude.{◌≡◌, ◌↔◌, IsTrue};
ghost use Rattle.ocp_figure.specs.Labels.{lower_metal};

use sym_geom::Contact;
use vlsi_base::Name;

/// Whether two lines have the same name, or both have none.
pub(crate) fn same_name(a: &Option<Name>, b: &Option<Name>) -> bool
    ensures { IsTrue result ↔ (a.now ≡ b.now) }
{
    match a {
        None => match b {
            None => true,
            Some(_) => false,
        },
        Some(name) => match b {
            None => false,
            Some(other) => name.is_same(other),
        },
    }
}

/// The number of a contact between metals, by the metal below it; none for any other contact.
fn lower_metal(contact: &Contact) -> Option<u8>
    ensures { result ≡ lower_metal contact.now }
{
    match contact {
        Contact::Via1 => Some(1),
        Contact::Via2 => Some(2),
        Contact::Via3 => Some(3),
        Contact::Via4 => Some(4),
        Contact::Via5 => Some(5),
        Contact::Other(_) => None,
    }
}

/// Whether two contacts are the same.
pub(crate) fn same_contact(a: &Contact, b: &Contact) -> bool
    ensures { IsTrue result ↔ (a.now ≡ b.now) }
{
    match a {
        Contact::Other(word) => match b {
            Contact::Other(other) => word.is_same(other),
            _ => false,
        },
        _ => match lower_metal(a) {
            None => false,
            Some(metal) => match lower_metal(b) {
                None => false,
                Some(other) => metal == other,
            },
        },
    }
}
