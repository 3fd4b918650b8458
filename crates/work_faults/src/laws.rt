//! A law of the definitions, the contract of a function.
ghost use Rattle.work_faults.specs.Faults.{CodesAreFaults};

use work_check::laws::report_faults_are;

/// What `parse` and `read_report` tell of a text by its code is a fault.
pub fn codes_are_faults()
    ensures { CodesAreFaults }
{
    report_faults_are();
}
