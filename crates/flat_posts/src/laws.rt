//! Laws of flat posts.
ghost use Rattle.std.specs.Prelude.{◌≡◌, ℕ, IsTrue, List};
ghost use Rattle.class_config.specs.Classes.{are_distinct};
ghost use Rattle.posts.specs.Maps.{Map};
ghost use Rattle.posts.specs.declared.posts.Post.{Post};
ghost use Rattle.flat_posts.specs.Maps.{IsMapOf};
ghost use Rattle.flat_posts.specs.Posts.{IsPost};
ghost use Rattle.flat_posts.specs.declared.map_parts.FlatClass.{FlatClass};
ghost use Rattle.flat_posts.specs.declared.map_parts.FlatRect.{FlatRect};
ghost use Rattle.flat_posts.specs.declared.maps.FlatMap.{FlatMap};
ghost use Rattle.flat_posts.specs.declared.posted.FlatPost.{FlatPost};

/// A law: a flat post is at most one post of one caller.
pub fn one_post()
    ensures { (map : Map) (flat : FlatPost) (caller other : ℕ) (post also : Post) → IsPost map flat caller post
        → IsPost map flat other also → (caller ≡ other) × (post ≡ also) }
{}

/// A law: a post of a caller has at most one flat form on a map whose classes have different names, as those of each map
/// have.
pub fn one_flat_post()
    ensures { (map : Map) (flat other : FlatPost) (caller : ℕ) (post : Post) → IsTrue (are_distinct map.classes)
        → IsPost map flat caller post → IsPost map other caller post → flat ≡ other }
{}

/// A law: numbers are at most one map.
pub fn one_map()
    ensures { (frame : FlatMap) (classes : List FlatClass) (base : List FlatRect) (map other : Map)
        → IsMapOf frame classes base map → IsMapOf frame classes base other → map ≡ other }
{}
