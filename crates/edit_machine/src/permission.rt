//! The texts of permissions.
ghost use Rattle.std.specs.Prelude.{◌≡◌};
ghost use Rattle.content_state.specs.Viewer.{administer_nodes as nodes_text};
ghost use Rattle.site_commands.specs.Fields.{create_aliases as aliases_text};
ghost use Rattle.site_commands.specs.Terms.{administer_taxonomy as taxonomy_text};
ghost use Rattle.site_commands.specs.Users.{administer_users as users_text, administer_permissions as permissions_text};
ghost use Rattle.site_commands.specs.Config.{administer_types as types_text, administer_blocks as blocks_text, administer_menu as menu_text, administer_views as views_text, administer_site as site_text};

/// `administer nodes`.
#[tactic(auto, unfolding(content_state::specs::Viewer::administer_nodes))]
pub fn administer_nodes() -> &'static [u8]
    ensures { result.now ≡ nodes_text }
{
    b"administer nodes"
}

/// `create url aliases`.
#[tactic(auto, unfolding(site_commands::specs::Fields::create_aliases))]
pub fn create_aliases() -> &'static [u8]
    ensures { result.now ≡ aliases_text }
{
    b"create url aliases"
}

/// `administer taxonomy`.
#[tactic(auto, unfolding(site_commands::specs::Terms::administer_taxonomy))]
pub fn administer_taxonomy() -> &'static [u8]
    ensures { result.now ≡ taxonomy_text }
{
    b"administer taxonomy"
}

/// `administer users`.
#[tactic(auto, unfolding(site_commands::specs::Users::administer_users))]
pub fn administer_users() -> &'static [u8]
    ensures { result.now ≡ users_text }
{
    b"administer users"
}

/// `administer permissions`.
#[tactic(auto, unfolding(site_commands::specs::Users::administer_permissions))]
pub fn administer_permissions() -> &'static [u8]
    ensures { result.now ≡ permissions_text }
{
    b"administer permissions"
}

/// `administer content types`.
#[tactic(auto, unfolding(site_commands::specs::Config::administer_types))]
pub fn administer_types() -> &'static [u8]
    ensures { result.now ≡ types_text }
{
    b"administer content types"
}

/// `administer blocks`.
#[tactic(auto, unfolding(site_commands::specs::Config::administer_blocks))]
pub fn administer_blocks() -> &'static [u8]
    ensures { result.now ≡ blocks_text }
{
    b"administer blocks"
}

/// `administer menu`.
#[tactic(auto, unfolding(site_commands::specs::Config::administer_menu))]
pub fn administer_menu() -> &'static [u8]
    ensures { result.now ≡ menu_text }
{
    b"administer menu"
}

/// `administer views`.
#[tactic(auto, unfolding(site_commands::specs::Config::administer_views))]
pub fn administer_views() -> &'static [u8]
    ensures { result.now ≡ views_text }
{
    b"administer views"
}

/// `administer site configuration`.
#[tactic(auto, unfolding(site_commands::specs::Config::administer_site))]
pub fn administer_site() -> &'static [u8]
    ensures { result.now ≡ site_text }
{
    b"administer site configuration"
}
