// The bodies of a store: each is put to the query of its kind.
ghost use Rattle.std.specs.Prelude.{◌≡◌};
ghost use Rattle.section.specs.profile.Replies.{told};
ghost use Rattle.section.specs.Answers.{sphere_answer, box_answer};
ghost use Rattle.listings.specs.store_listing.Listing.{sphere_at, box_at, body_answer};

use arith::Vec3;
use section::{CollisionHit, Refusal, Sphere};
use store::{Kind, is_kind, number_of};

fn sphere_answer(store: &[u8], s: &[f64], k: u32) -> Result<CollisionHit, Refusal>
    ensures { told result ≡ sphere_answer s.now (sphere_at store.now k) }
{
    let center = Vec3 {
        x: number_of(store, k, 0),
        y: number_of(store, k, 1),
        z: number_of(store, k, 2),
    };
    let radius = number_of(store, k, 3);
    section::query_sphere(s, Sphere { center, radius })
}

fn box_answer(store: &[u8], s: &[f64], k: u32) -> Result<CollisionHit, Refusal>
    ensures { told result ≡ box_answer s.now (box_at store.now k) }
{
    let z0 = number_of(store, k, 0);
    let z1 = number_of(store, k, 1);
    let r0 = number_of(store, k, 2);
    let r1 = number_of(store, k, 3);
    section::aabb_polygon_distance(z0, z1, r0, r1, s)
}

// The answer of record k's query.
pub fn body_answer(store: &[u8], s: &[f64], k: u32) -> Result<CollisionHit, Refusal>
    ensures { told result ≡ body_answer store.now s.now k }
{
    if is_kind(store, k, Kind::Sphere) {
        return sphere_answer(store, s, k);
    }
    box_answer(store, s, k)
}
