//! What is written of a right body is read back as it: no table refuses what it is to take.
ghost use Rattle.std.specs.Prelude.{ℕ, List, IsTrue};
ghost use Rattle.content_rows.specs.LiteralName.{is_name};
ghost use Rattle.site_commands.specs.Right.{IsRightNewNode, IsRightNodePatch, IsRightNewTerm, IsRightTermPatch, IsRightNewUser, IsRightUserPatch, IsRightNewComment, IsRightCommentPatch};
ghost use Rattle.site_commands.specs.declared.body.NewNode.{NewNode};
ghost use Rattle.site_commands.specs.declared.body.NodePatch.{NodePatch};
ghost use Rattle.site_commands.specs.declared.body.NewTerm.{NewTerm};
ghost use Rattle.site_commands.specs.declared.body.TermPatch.{TermPatch};
ghost use Rattle.site_commands.specs.declared.body.NewUser.{NewUser};
ghost use Rattle.site_commands.specs.declared.body.UserPatch.{UserPatch};
ghost use Rattle.site_commands.specs.declared.body.NewComment.{NewComment};
ghost use Rattle.site_commands.specs.declared.body.CommentPatch.{CommentPatch};
ghost use Rattle.body_kinds.specs.Bodies.{new_node_in, node_patch_in, new_term_in, term_patch_in, new_user_in, user_patch_in, new_comment_in, comment_patch_in};
ghost use Rattle.body_kinds.specs.Tables.{new_node_keys, node_patch_keys, new_term_keys, term_patch_keys, new_user_keys, user_patch_keys, new_comment_keys, comment_patch_keys};
ghost use Rattle.body_kinds.specs.Written.{ComesBack, new_node_said, node_patch_said, new_term_said, term_patch_said, new_user_said, user_patch_said, new_comment_said, comment_patch_said, IsTypedNewNode, IsTypedNodePatch, IsTypedNewUser, IsTypedUserPatch};

/// A right node to be made, of any type, comes back.
pub fn new_nodes_come_back()
    ensures { (kind : List ℕ) (new : NewNode) → IsTrue (is_name kind) → IsRightNewNode new → IsTypedNewNode new
        → ComesBack new_node_in new_node_keys (new_node_said kind new) new }
{}

/// A right change of a node comes back.
pub fn node_patches_come_back()
    ensures { (patch : NodePatch) → IsRightNodePatch patch → IsTypedNodePatch patch
        → ComesBack node_patch_in node_patch_keys (node_patch_said patch) patch }
{}

/// A right term to be made comes back.
pub fn new_terms_come_back()
    ensures { (new : NewTerm) → IsRightNewTerm new
        → ComesBack new_term_in new_term_keys (new_term_said new) new }
{}

/// A right change of a term comes back.
pub fn term_patches_come_back()
    ensures { (patch : TermPatch) → IsRightTermPatch patch
        → ComesBack term_patch_in term_patch_keys (term_patch_said patch) patch }
{}

/// A right user to be made comes back.
pub fn new_users_come_back()
    ensures { (new : NewUser) → IsRightNewUser new → IsTypedNewUser new
        → ComesBack new_user_in new_user_keys (new_user_said new) new }
{}

/// A right change of a user comes back.
pub fn user_patches_come_back()
    ensures { (patch : UserPatch) → IsRightUserPatch patch → IsTypedUserPatch patch
        → ComesBack user_patch_in user_patch_keys (user_patch_said patch) patch }
{}

/// A right comment to be made comes back.
pub fn new_comments_come_back()
    ensures { (new : NewComment) → IsRightNewComment new
        → ComesBack new_comment_in new_comment_keys (new_comment_said new) new }
{}

/// A right change of a comment comes back.
pub fn comment_patches_come_back()
    ensures { (patch : CommentPatch) → IsRightCommentPatch patch
        → ComesBack comment_patch_in comment_patch_keys (comment_patch_said patch) patch }
{}
