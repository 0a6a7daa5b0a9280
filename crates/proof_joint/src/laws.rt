// Laws: what a machine does as it is compared.
ghost use Rattle.proof_joint.specs.Compared.{ComparedBehavesAlike, ComparedRunsAlike};

/// As it is compared, a machine does what it does itself, whatever bit its clock has there where the clock loads nothing: it shows the
/// same outputs and loads the same, cycle by cycle and run by run. It costs nothing when it is called.
pub fn compared_law()
    ensures behaves { ComparedBehavesAlike }
    ensures runs { ComparedRunsAlike }
{}
