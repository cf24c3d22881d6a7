//! Laws of what a build from scratch gives.
ghost use Rattle.pli_build_laws.specs.BuiltModules.{BuiltModulesAreSpelled};

/// A law: the module that at most 999 members give in a build from scratch is what its bytes spell; so loading them
/// gives it again.
pub fn built_modules_are_spelled()
    ensures { BuiltModulesAreSpelled }
{}
