//! Where an instance stands, as it is kept while it is walked.
ghost use Rattle.std.specs.Prelude.{◌≡◌, ◌++◌, ◌∷◌, [], IfOk, option_map};
ghost use Rattle.design_wires.specs.Places.{seen_here, seen_shown};
ghost use Rattle.design_walk.specs.Instances as spec;
ghost use Rattle.design_walk.specs.Kept.{seen_from, seen_place};

use design_wires::{Here, Shown, is_public};
use rtlil_tree::Module;
use sim_base::{Name, NoMemory};
use std::alloc::Global;

/// Where the names of an instance are shown.
#[derive(Debug, Drop)]
pub struct ShownFrom {
    /// What they begin with: the identifiers on the way to the instance without the `\`, each with a space behind
    /// it.
    pub prefix: Name,
    /// The number of its scope.
    pub scope: u32,
}

/// An instance of a module, with texts of its own.
#[derive(Debug, Drop)]
pub struct Place<'t> {
    /// The identifier of the module.
    pub owner: &'t [u8],
    /// What the paths in it begin with: the identifiers on the way to it, each with a space behind it.
    pub prefix: Name,
    /// Where it is shown, if each identifier on the way to it begins with `\`.
    pub shown: Option<ShownFrom>,
}

fn shown_here(shown: &Option<ShownFrom>) -> Option<Shown>
    ensures { option_map seen_shown result ≡ option_map seen_from shown.now }
{
    let Some(shown) = shown else {
        return None;
    };
    Some(Shown {
        prefix: shown.prefix.as_bytes(),
        scope: shown.scope,
    })
}

/// The same place with borrowed texts.
pub fn here<'a>(place: &'a Place) -> Here<'a>
    ensures { seen_here result ≡ seen_place place.now }
{
    Here {
        owner: place.owner,
        prefix: place.prefix.as_bytes(),
        shown: shown_here(&place.shown),
    }
}

fn joined(alloc: Global, front: &[u8], name: &[u8]) -> Result<Name, NoMemory>
    ensures { IfOk result (λ path. path ≡ (front.now ++ name.now) ++ 32 ∷ []) }
{
    let mut bytes = Vec::from_slice(alloc, front)?;
    bytes.extend_from_slice(name)?;
    bytes.push(b' ')?;
    Ok(Name::new(bytes))
}

fn shown_within(
    alloc: Global,
    around: &Option<Shown>,
    name: &[u8],
    scopes: u32,
) -> Result<Option<ShownFrom>, NoMemory>
    ensures { IfOk result (λ shown. option_map seen_from shown ≡ spec.shown_within (option_map seen_shown around.now) name.now scopes) }
{
    let Some(around) = around else {
        return Ok(None);
    };
    if !is_public(name) {
        return Ok(None);
    }
    Ok(Some(ShownFrom {
        prefix: joined(alloc, around.prefix, &name[1..])?,
        scope: scopes,
    }))
}

/// Where an instance stands inside another one: of this module, and the cell of this name; so many scopes stand
/// before it.
pub fn place_within<'t>(
    alloc: Global,
    around: &Here,
    unit: &Module<'t>,
    name: &[u8],
    scopes: u32,
) -> Result<Place<'t>, NoMemory>
    ensures { IfOk result (λ place. seen_place place ≡ spec.place_within (seen_here around.now) unit.now.name name.now scopes) }
{
    Ok(Place {
        owner: unit.name.as_bytes(),
        prefix: joined(alloc, around.prefix, name)?,
        shown: shown_within(alloc, &around.shown, name, scopes)?,
    })
}

/// Where the top stands, with so many scopes before it.
pub fn top_place<'t>(alloc: Global, unit: &Module<'t>, scopes: u32) -> Place<'t>
    ensures { seen_place result ≡ spec.top_place unit.now scopes }
{
    Place {
        owner: unit.name.as_bytes(),
        prefix: Name::new(Vec::new(alloc)),
        shown: Some(ShownFrom {
            prefix: Name::new(Vec::new(alloc)),
            scope: scopes,
        }),
    }
}
