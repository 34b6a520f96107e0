// Values that may not stand there, with the first fault of the file.

/// Values of the right kind that may not stand there.
pub const BAD_VALUES: &str =
    r###"[{"route":{"from":{"uri":"direct:a"},"id":""}}] => $[0].route.id BadName
[{"from":{"uri":"stream:in","steps":[{"setBody":{"header":"a b"}}]}}] => $[0].from.steps[0].setBody.header BadName
[{"from":{"uri":"stream:in","steps":[{"setBody":{"exchangeProperty":"nnnnnnnnnnnnnnnnnnnnnnnnnnnnnnnnnnnnnnnnnnnnnnnnnnnnnnnnnnnnnnnnn"}}]}}] => $[0].from.steps[0].setBody.exchangeProperty BadName
[{"from":{"uri":"stream:in","steps":[{"setHeader":{"simple":"${body}","name":"é"}}]}}] => $[0].from.steps[0].setHeader.name BadName
[{"from":{"uri":"stream:in","steps":[{"setHeader":{"name":"h","header":"a/b"}}]}}] => $[0].from.steps[0].setHeader.header BadName
[{"from":{"uri":"stream:in","steps":[{"setHeader":{"name":"h","exchangeProperty":"a\t"}}]}}] => $[0].from.steps[0].setHeader.exchangeProperty BadName
[{"from":{"uri":"stream:in","steps":[{"setProperty":{"header":"h","name":"#h"}}]}}] => $[0].from.steps[0].setProperty.name BadName
[{"from":{"uri":"stream:in","steps":[{"setProperty":{"name":"p","header":"a:b"}}]}}] => $[0].from.steps[0].setProperty.header BadName
[{"from":{"uri":"stream:in","steps":[{"setProperty":{"name":"p","exchangeProperty":"a,b"}}]}}] => $[0].from.steps[0].setProperty.exchangeProperty BadName
[{"from":{"uri":"stream:in","steps":[{"removeHeader":{"name":" a"}}]}}] => $[0].from.steps[0].removeHeader.name BadName
[{"from":{"uri":"stream:in","steps":[{"log":{"message":"m","logName":"${body}"}}]}}] => $[0].from.steps[0].log.logName BadName
[{"from":{"uri":"stream:in","steps":[{"process":{"ref":"a$"}}]}}] => $[0].from.steps[0].process.ref BadName
[{"from":{"uri":"stream:in","steps":[{"choice":{"when":[{"steps":[],"ref":""}]}}]}}] => $[0].from.steps[0].choice.when[0].ref BadName
[{"from":{"uri":"stream:in","steps":[{"filter":{"steps":[],"ref":"a b"}}]}}] => $[0].from.steps[0].filter.ref BadName
[{"from":{"uri":"stream:in","steps":[{"recipientList":{"header":"nnnnnnnnnnnnnnnnnnnnnnnnnnnnnnnnnnnnnnnnnnnnnnnnnnnnnnnnnnnnnnnnn"}}]}}] => $[0].from.steps[0].recipientList.header BadName
[{"from":{"uri":"stream:in","steps":[{"recipientList":{"exchangeProperty":"é"}}]}}] => $[0].from.steps[0].recipientList.exchangeProperty BadName
[{"from":{"uri":"stream:in","steps":[{"aggregate":{"correlationExpression":{"header":"a/b"},"completionSize":2,"steps":[]}}]}}] => $[0].from.steps[0].aggregate.correlationExpression.header BadName
[{"from":{"uri":"stream:in","steps":[{"aggregate":{"correlationExpression":{"exchangeProperty":"a\t"},"completionSize":2,"steps":[]}}]}}] => $[0].from.steps[0].aggregate.correlationExpression.exchangeProperty BadName
[{"from":{"uri":"stream:in","steps":[{"idempotentConsumer":{"steps":[],"header":"#h"}}]}}] => $[0].from.steps[0].idempotentConsumer.header BadName
[{"from":{"uri":"stream:in","steps":[{"idempotentConsumer":{"steps":[],"exchangeProperty":"a:b"}}]}}] => $[0].from.steps[0].idempotentConsumer.exchangeProperty BadName
[{"from":{"uri":"stream:in","steps":[{"idempotentConsumer":{"header":"h","steps":[],"idempotentRepository":"a,b"}}]}}] => $[0].from.steps[0].idempotentConsumer.idempotentRepository BadName
[{"from":{"uri":"stream:in","steps":[{"setBody":{"expression":{"header":" a"}}}]}}] => $[0].from.steps[0].setBody.expression.header BadName
[{"from":{"uri":"stream:in","steps":[{"setBody":{"expression":{"exchangeProperty":"${body}"}}}]}}] => $[0].from.steps[0].setBody.expression.exchangeProperty BadName
[{"from":{"uri":"stream:in","steps":[{"filter":{"expression":{"ref":"a$"},"steps":[]}}]}}] => $[0].from.steps[0].filter.expression.ref BadName
[{"from":{"uri":"stream:in","steps":[{"setHeader":{"simple":"${body}","name":""}}]}}] => $[0].from.steps[0].setHeader.name BadName
[{"from":{"uri":"stream:in","steps":[{"setHeader":{"simple":"${body}","name":"a b"}}]}}] => $[0].from.steps[0].setHeader.name BadName
[{"from":{"uri":"stream:in","steps":[{"setHeader":{"simple":"${body}","name":"nnnnnnnnnnnnnnnnnnnnnnnnnnnnnnnnnnnnnnnnnnnnnnnnnnnnnnnnnnnnnnnnn"}}]}}] => $[0].from.steps[0].setHeader.name BadName
[{"from":{"uri":"stream:in","steps":[{"setHeader":{"simple":"${body}","name":"a/b"}}]}}] => $[0].from.steps[0].setHeader.name BadName
[{"from":{"uri":"stream:in","steps":[{"setHeader":{"simple":"${body}","name":"a\t"}}]}}] => $[0].from.steps[0].setHeader.name BadName
[{"from":{"uri":"stream:in","steps":[{"setHeader":{"simple":"${body}","name":"#h"}}]}}] => $[0].from.steps[0].setHeader.name BadName
[{"from":{"uri":"stream:in","steps":[{"setHeader":{"simple":"${body}","name":"a:b"}}]}}] => $[0].from.steps[0].setHeader.name BadName
[{"from":{"uri":"stream:in","steps":[{"setHeader":{"simple":"${body}","name":"a,b"}}]}}] => $[0].from.steps[0].setHeader.name BadName
[{"from":{"uri":"stream:in","steps":[{"setHeader":{"simple":"${body}","name":" a"}}]}}] => $[0].from.steps[0].setHeader.name BadName
[{"from":{"uri":"stream:in","steps":[{"setHeader":{"simple":"${body}","name":"${body}"}}]}}] => $[0].from.steps[0].setHeader.name BadName
[{"from":{"uri":"stream:in","steps":[{"setHeader":{"simple":"${body}","name":"a$"}}]}}] => $[0].from.steps[0].setHeader.name BadName
[{"from":{"uri":"stream:in","steps":[{"removeHeader":"a b"}]}}] => $[0].from.steps[0].removeHeader BadName
[{"from":{"uri":"stream:in","steps":[{"removeHeader":""}]}}] => $[0].from.steps[0].removeHeader BadName
[{"from":{"uri":"stream:in","steps":[{"removeHeader":"#h"}]}}] => $[0].from.steps[0].removeHeader BadName
[{"from":{"uri":"stream:in","steps":[{"process":"#"}]}}] => $[0].from.steps[0].process BadName
[{"from":{"uri":"stream:in","steps":[{"process":"##keep"}]}}] => $[0].from.steps[0].process BadName
[{"from":{"uri":"stream:in","steps":[{"process":{"ref":""}}]}}] => $[0].from.steps[0].process.ref BadName
[{"from":{"uri":"stream:in","steps":[{"idempotentConsumer":{"header":"h","idempotentRepository":"#","steps":[]}}]}}] => $[0].from.steps[0].idempotentConsumer.idempotentRepository BadName
[{"from":{"uri":"stream:in","steps":[{"throwException":{"message":"m","exceptionType":""}}]}}] => $[0].from.steps[0].throwException.exceptionType BadName
[{"from":{"uri":"stream:in","steps":[{"throwException":{"message":"m","exceptionType":"a.b."}}]}}] => $[0].from.steps[0].throwException.exceptionType BadName
[{"from":{"uri":"stream:in","steps":[{"throwException":{"message":"m","exceptionType":"E "}}]}}] => $[0].from.steps[0].throwException.exceptionType BadName
[{"from":{"uri":"stream:in","steps":[{"throwException":{"message":"m","exceptionType":"a.b c"}}]}}] => $[0].from.steps[0].throwException.exceptionType BadName
[{"from":{"uri":"stream:in","steps":[{"throwException":{"message":"m","exceptionType":"a.nnnnnnnnnnnnnnnnnnnnnnnnnnnnnnnnnnnnnnnnnnnnnnnnnnnnnnnnnnnnnnnnn"}}]}}] => $[0].from.steps[0].throwException.exceptionType BadName
[{"from":{"uri":"stream:in","steps":[{"throwException":{"message":"m","exceptionType":"é"}}]}}] => $[0].from.steps[0].throwException.exceptionType BadName
[{"from":{"uri":"stream:in","steps":[{"throwException":{"message":"m","exceptionType":"a:b"}}]}}] => $[0].from.steps[0].throwException.exceptionType BadName
[{"from":{"uri":"stream:in","steps":[{"throwException":{"message":"m","exceptionType":"."}}]}}] => $[0].from.steps[0].throwException.exceptionType BadName
[{"onException":{"exception":"E","redeliveryPolicy":{"useExponentialBackOff":"True"}}}] => $[0].onException.redeliveryPolicy.useExponentialBackOff BadValue
[{"from":{"uri":"stream:in","steps":[{"split":{"tokenize":",","steps":[],"parallelProcessing":""}}]}}] => $[0].from.steps[0].split.parallelProcessing BadValue
[{"from":{"uri":"stream:in","steps":[{"split":{"tokenize":",","steps":[],"stopOnException":"yes"}}]}}] => $[0].from.steps[0].split.stopOnException BadValue
[{"from":{"uri":"stream:in","steps":[{"multicast":{"steps":[{"to":"log:a"}],"parallelProcessing":"true "}}]}}] => $[0].from.steps[0].multicast.parallelProcessing BadValue
[{"from":{"uri":"stream:in","steps":[{"multicast":{"steps":[{"to":"log:a"}],"stopOnException":"1"}}]}}] => $[0].from.steps[0].multicast.stopOnException BadValue
[{"from":{"uri":"stream:in","steps":[{"recipientList":{"header":"to","parallelProcessing":"TRUE"}}]}}] => $[0].from.steps[0].recipientList.parallelProcessing BadValue
[{"from":{"uri":"stream:in","steps":[{"recipientList":{"header":"to","stopOnException":"null"}}]}}] => $[0].from.steps[0].recipientList.stopOnException BadValue
[{"from":{"uri":"stream:in","steps":[{"aggregate":{"correlationExpression":{"header":"h"},"completionSize":2,"steps":[],"forceCompletionOnStop":"falsch"}}]}}] => $[0].from.steps[0].aggregate.forceCompletionOnStop BadValue
[{"from":{"uri":"stream:in","steps":[{"idempotentConsumer":{"header":"h","steps":[],"skipDuplicate":"True"}}]}}] => $[0].from.steps[0].idempotentConsumer.skipDuplicate BadValue
[{"from":{"uri":"stream:in","steps":[{"filter":{"steps":[],"constant":""}}]}}] => $[0].from.steps[0].filter.constant BadValue
[{"from":{"uri":"stream:in","steps":[{"choice":{"when":[{"steps":[],"constant":"yes"}]}}]}}] => $[0].from.steps[0].choice.when[0].constant BadValue
[{"from":{"uri":"stream:in","steps":[{"filter":{"expression":{"constant":"true "},"steps":[]}}]}}] => $[0].from.steps[0].filter.expression.constant BadValue
[{"from":{"uri":"stream:in","steps":[{"filter":{"constant":{"expression":"1"},"steps":[]}}]}}] => $[0].from.steps[0].filter.constant.expression BadValue
[{"onException":{"exception":"E","handled":{"constant":"TRUE"}}}] => $[0].onException.handled.constant BadValue
[{"onException":{"exception":"E","handled":"null"}}] => $[0].onException.handled BadValue
[{"onException":{"exception":"E","continued":"falsch"}}] => $[0].onException.continued BadValue
[{"from":{"uri":"stream:in","steps":[{"split":{"tokenize":",","steps":[],"shareUnitOfWork":"True"}}]}}] => $[0].from.steps[0].split.shareUnitOfWork BadValue
[{"from":{"uri":"stream:in","steps":[{"multicast":{"steps":[{"to":"log:a"}],"shareUnitOfWork":"yes"}}]}}] => $[0].from.steps[0].multicast.shareUnitOfWork BadValue
[{"from":{"uri":"stream:in","steps":[{"doTry":{"steps":[],"doCatch":[{"exception":[],"steps":[]}]}}]}}] => $[0].from.steps[0].doTry.doCatch[0].exception BadValue
[{"from":{"uri":"stream:in","steps":[{"doTry":{"steps":[],"doCatch":[{"exception":"E","steps":[],"onWhen":{"constant":"yes"}}]}}]}}] => $[0].from.steps[0].doTry.doCatch[0].onWhen.constant BadValue
[{"from":{"uri":"stream:in","steps":[{"recipientList":{"header":"to","shareUnitOfWork":""}}]}}] => $[0].from.steps[0].recipientList.shareUnitOfWork BadValue
[{"from":{"uri":"stream:in","steps":[{"idempotentConsumer":{"header":"h","steps":[],"eager":"True"}}]}}] => $[0].from.steps[0].idempotentConsumer.eager BadValue
[{"from":{"uri":"stream:in","steps":[{"idempotentConsumer":{"header":"h","steps":[],"removeOnFailure":""}}]}}] => $[0].from.steps[0].idempotentConsumer.removeOnFailure BadValue
[{"onException":{"exception":"E","redeliveryPolicy":{"maximumRedeliveries":-1}}}] => $[0].onException.redeliveryPolicy.maximumRedeliveries BadValue
[{"onException":{"exception":"E","redeliveryPolicy":{"maximumRedeliveries":"1001"}}}] => $[0].onException.redeliveryPolicy.maximumRedeliveries BadValue
[{"onException":{"exception":"E","redeliveryPolicy":{"redeliveryDelay":-1}}}] => $[0].onException.redeliveryPolicy.redeliveryDelay BadValue
[{"onException":{"exception":"E","redeliveryPolicy":{"redeliveryDelay":"1000000001"}}}] => $[0].onException.redeliveryPolicy.redeliveryDelay BadValue
[{"onException":{"exception":"E","redeliveryPolicy":{"backOffMultiplier":0}}}] => $[0].onException.redeliveryPolicy.backOffMultiplier BadValue
[{"onException":{"exception":"E","redeliveryPolicy":{"backOffMultiplier":"101"}}}] => $[0].onException.redeliveryPolicy.backOffMultiplier BadValue
[{"onException":{"exception":"E","redeliveryPolicy":{"maximumRedeliveryDelay":-1}}}] => $[0].onException.redeliveryPolicy.maximumRedeliveryDelay BadValue
[{"onException":{"exception":"E","redeliveryPolicy":{"maximumRedeliveryDelay":"1000000001"}}}] => $[0].onException.redeliveryPolicy.maximumRedeliveryDelay BadValue
[{"from":{"uri":"stream:in","steps":[{"aggregate":{"correlationExpression":{"header":"h"},"steps":[],"completionSize":0}}]}}] => $[0].from.steps[0].aggregate.completionSize BadValue
[{"from":{"uri":"stream:in","steps":[{"aggregate":{"correlationExpression":{"header":"h"},"steps":[],"completionSize":"1000001"}}]}}] => $[0].from.steps[0].aggregate.completionSize BadValue
[{"from":{"uri":"stream:in","steps":[{"aggregate":{"correlationExpression":{"header":"h"},"completionSize":2,"steps":[],"completionTimeout":0}}]}}] => $[0].from.steps[0].aggregate.completionTimeout BadValue
[{"from":{"uri":"stream:in","steps":[{"aggregate":{"correlationExpression":{"header":"h"},"completionSize":2,"steps":[],"completionTimeout":"1000000001"}}]}}] => $[0].from.steps[0].aggregate.completionTimeout BadValue
[{"from":{"uri":"stream:in","steps":[{"aggregate":{"correlationExpression":{"header":"h"},"steps":[],"completionSize":1000001}}]}}] => $[0].from.steps[0].aggregate.completionSize BadValue
[{"from":{"uri":"stream:in","steps":[{"aggregate":{"correlationExpression":{"header":"h"},"steps":[],"completionSize":"0"}}]}}] => $[0].from.steps[0].aggregate.completionSize BadValue
[{"from":{"uri":"stream:in","steps":[{"aggregate":{"correlationExpression":{"header":"h"},"steps":[],"completionSize":""}}]}}] => $[0].from.steps[0].aggregate.completionSize BadValue
[{"from":{"uri":"stream:in","steps":[{"aggregate":{"correlationExpression":{"header":"h"},"steps":[],"completionSize":"1.5"}}]}}] => $[0].from.steps[0].aggregate.completionSize BadValue
[{"from":{"uri":"stream:in","steps":[{"aggregate":{"correlationExpression":{"header":"h"},"steps":[],"completionSize":18446744073709551615}}]}}] => $[0].from.steps[0].aggregate.completionSize BadValue
[{"from":{"uri":"stream:in","steps":[{"aggregate":{"correlationExpression":{"header":"h"},"steps":[],"completionSize":-9223372036854775808}}]}}] => $[0].from.steps[0].aggregate.completionSize BadValue
[{"from":{"uri":"stream:in","steps":[{"aggregate":{"correlationExpression":{"header":"h"},"steps":[],"completionSize":"9223372036854775808"}}]}}] => $[0].from.steps[0].aggregate.completionSize BadValue
[{"from":{"uri":"stream:in","steps":[{"aggregate":{"correlationExpression":{"header":"h"},"steps":[],"completionSize":"+1"}}]}}] => $[0].from.steps[0].aggregate.completionSize BadValue
[{"from":{"uri":"stream:in","steps":[{"aggregate":{"correlationExpression":{"header":"h"},"steps":[],"completionSize":" 1"}}]}}] => $[0].from.steps[0].aggregate.completionSize BadValue
[{"from":{"uri":"stream:in","steps":[{"aggregate":{"correlationExpression":{"header":"h"},"steps":[],"completionSize":"1 "}}]}}] => $[0].from.steps[0].aggregate.completionSize BadValue
[{"from":{"uri":"stream:in","steps":[{"aggregate":{"correlationExpression":{"header":"h"},"steps":[],"completionSize":"0x1"}}]}}] => $[0].from.steps[0].aggregate.completionSize BadValue
[{"from":{"uri":"stream:in","steps":[{"aggregate":{"correlationExpression":{"header":"h"},"steps":[],"completionSize":"1e2"}}]}}] => $[0].from.steps[0].aggregate.completionSize BadValue
[{"from":{"uri":"stream:in","steps":[{"aggregate":{"correlationExpression":{"header":"h"},"steps":[],"completionSize":"-"}}]}}] => $[0].from.steps[0].aggregate.completionSize BadValue
[{"from":{"uri":"stream:in","steps":[{"aggregate":{"correlationExpression":{"header":"h"},"steps":[],"completionSize":"--1"}}]}}] => $[0].from.steps[0].aggregate.completionSize BadValue
[{"from":{"uri":"stream:in","steps":[{"aggregate":{"correlationExpression":{"header":"h"},"steps":[],"completionSize":"٣"}}]}}] => $[0].from.steps[0].aggregate.completionSize BadValue
[{"from":{"uri":"stream:in","steps":[{"split":{"tokenize":",","steps":[],"aggregationStrategy":""}}]}}] => $[0].from.steps[0].split.aggregationStrategy BadValue
[{"from":{"uri":"stream:in","steps":[{"split":{"tokenize":",","steps":[],"aggregationStrategy":"Latest"}}]}}] => $[0].from.steps[0].split.aggregationStrategy BadValue
[{"from":{"uri":"stream:in","steps":[{"split":{"tokenize":",","steps":[],"aggregationStrategy":"join"}}]}}] => $[0].from.steps[0].split.aggregationStrategy BadValue
[{"from":{"uri":"stream:in","steps":[{"split":{"tokenize":",","steps":[],"aggregationStrategy":"joined,"}}]}}] => $[0].from.steps[0].split.aggregationStrategy BadValue
[{"from":{"uri":"stream:in","steps":[{"split":{"tokenize":",","steps":[],"aggregationStrategy":"##sum"}}]}}] => $[0].from.steps[0].split.aggregationStrategy BadValue
[{"from":{"uri":"stream:in","steps":[{"split":{"tokenize":",","steps":[],"aggregationStrategy":"useLatest"}}]}}] => $[0].from.steps[0].split.aggregationStrategy BadValue
[{"from":{"uri":"stream:in","steps":[{"multicast":{"steps":[{"to":"log:a"}],"aggregationStrategy":"joined "}}]}}] => $[0].from.steps[0].multicast.aggregationStrategy BadValue
[{"from":{"uri":"stream:in","steps":[{"recipientList":{"header":"to","aggregationStrategy":"#"}}]}}] => $[0].from.steps[0].recipientList.aggregationStrategy BadValue
[{"from":{"uri":"stream:in","steps":[{"aggregate":{"correlationExpression":{"header":"h"},"completionSize":2,"steps":[],"aggregationStrategy":""}}]}}] => $[0].from.steps[0].aggregate.aggregationStrategy BadValue
[{"from":{"uri":"stream:in","steps":[{"aggregate":{"correlationExpression":{"header":"h"},"completionSize":2,"steps":[],"aggregationStrategy":"original"}}]}}] => $[0].from.steps[0].aggregate.aggregationStrategy BadValue
[{"from":{"uri":"stream:in","steps":[{"aggregate":{"correlationExpression":{"header":"h"},"completionSize":2,"steps":[],"aggregationStrategy":"#original"}}]}}] => $[0].from.steps[0].aggregate.aggregationStrategy BadValue
[{"from":{"uri":"stream:in","steps":[{"aggregate":{"correlationExpression":{"header":"h"},"completionSize":2,"steps":[],"aggregationStrategy":"sum "}}]}}] => $[0].from.steps[0].aggregate.aggregationStrategy BadValue
[{"from":{"uri":"stream:in","steps":[{"recipientList":{"header":"to","delimiter":""}}]}}] => $[0].from.steps[0].recipientList.delimiter BadValue
[{"from":{"uri":"stream:in","steps":[{"split":{"steps":[],"tokenize":""}}]}}] => $[0].from.steps[0].split.tokenize BadValue
[{"from":{"uri":"stream:in","steps":[{"split":{"steps":[],"tokenize":{"token":""}}}]}}] => $[0].from.steps[0].split.tokenize.token BadValue
[{"from":{"uri":"stream:in","steps":[{"split":{"steps":[],"jsonpath":""}}]}}] => $[0].from.steps[0].split.jsonpath BadValue
[{"from":{"uri":"stream:in","steps":[{"split":{"steps":[],"jsonpath":"$"}}]}}] => $[0].from.steps[0].split.jsonpath BadValue
[{"from":{"uri":"stream:in","steps":[{"split":{"steps":[],"jsonpath":"$.[*]"}}]}}] => $[0].from.steps[0].split.jsonpath BadValue
[{"from":{"uri":"stream:in","steps":[{"split":{"steps":[],"jsonpath":"$[0]"}}]}}] => $[0].from.steps[0].split.jsonpath BadValue
[{"from":{"uri":"stream:in","steps":[{"split":{"steps":[],"jsonpath":" $[*]"}}]}}] => $[0].from.steps[0].split.jsonpath BadValue
[{"from":{"uri":"stream:in","steps":[{"log":{"message":"m","loggingLevel":""}}]}}] => $[0].from.steps[0].log.loggingLevel BadValue
[{"from":{"uri":"stream:in","steps":[{"log":{"message":"m","loggingLevel":"info"}}]}}] => $[0].from.steps[0].log.loggingLevel BadValue
[{"from":{"uri":"stream:in","steps":[{"log":{"message":"m","loggingLevel":"OFF"}}]}}] => $[0].from.steps[0].log.loggingLevel BadValue
[{"from":{"uri":"stream:in","steps":[{"log":{"message":"m","loggingLevel":"FATAL"}}]}}] => $[0].from.steps[0].log.loggingLevel BadValue
[{"onException":{"exception":[]}}] => $[0].onException.exception BadValue
[{"from":{"uri":"stream:in","steps":[{"choice":{"when":[]}}]}}] => $[0].from.steps[0].choice.when BadValue
[{"from":{"uri":"stream:in","steps":[{"multicast":{"steps":[]}}]}}] => $[0].from.steps[0].multicast.steps BadValue
[{"from":{"uri":"stream:in","steps":[{"resequence":{"simple":"","steps":[]}}]}}] => $[0].from.steps[0].resequence.simple BadValue
[{"from":{"uri":"stream:in","steps":[{"resequence":{"simple":"body","steps":[]}}]}}] => $[0].from.steps[0].resequence.simple BadValue
[{"from":{"uri":"stream:in","steps":[{"resequence":{"simple":"${exchangeId}","steps":[]}}]}}] => $[0].from.steps[0].resequence.simple BadValue
[{"from":{"uri":"stream:in","steps":[{"resequence":{"simple":"${routeId}","steps":[]}}]}}] => $[0].from.steps[0].resequence.simple BadValue
[{"from":{"uri":"stream:in","steps":[{"resequence":{"simple":"${exception.message}","steps":[]}}]}}] => $[0].from.steps[0].resequence.simple BadValue
[{"from":{"uri":"stream:in","steps":[{"resequence":{"simple":"${body} ","steps":[]}}]}}] => $[0].from.steps[0].resequence.simple BadValue
[{"from":{"uri":"stream:in","steps":[{"resequence":{"simple":" ${header.h}","steps":[]}}]}}] => $[0].from.steps[0].resequence.simple BadValue
[{"from":{"uri":"stream:in","steps":[{"resequence":{"simple":"${body}${header.h}","steps":[]}}]}}] => $[0].from.steps[0].resequence.simple BadValue
[{"from":{"uri":"stream:in","steps":[{"resequence":{"simple":{"expression":"x"},"steps":[]}}]}}] => $[0].from.steps[0].resequence.simple.expression BadValue
[{"from":{"uri":"stream:in","steps":[{"resequence":{"header":"a b","steps":[]}}]}}] => $[0].from.steps[0].resequence.header BadName
[{"from":{"uri":"stream:in","steps":[{"resequence":{"exchangeProperty":"","steps":[]}}]}}] => $[0].from.steps[0].resequence.exchangeProperty BadName
[{"from":{"uri":"stream:in","steps":[{"resequence":{"header":"h","steps":[],"batchConfig":{"batchSize":0}}}]}}] => $[0].from.steps[0].resequence.batchConfig.batchSize BadValue
[{"from":{"uri":"stream:in","steps":[{"resequence":{"header":"h","steps":[],"batchConfig":{"batchSize":1001}}}]}}] => $[0].from.steps[0].resequence.batchConfig.batchSize BadValue
[{"from":{"uri":"stream:in","steps":[{"resequence":{"header":"h","steps":[],"batchConfig":{"batchSize":"1001"}}}]}}] => $[0].from.steps[0].resequence.batchConfig.batchSize BadValue
[{"from":{"uri":"stream:in","steps":[{"resequence":{"header":"h","steps":[],"batchConfig":{"batchSize":-1}}}]}}] => $[0].from.steps[0].resequence.batchConfig.batchSize BadValue
[{"from":{"uri":"stream:in","steps":[{"resequence":{"header":"h","steps":[],"batchConfig":{"batchSize":"x"}}}]}}] => $[0].from.steps[0].resequence.batchConfig.batchSize BadValue
[{"from":{"uri":"stream:in","steps":[{"resequence":{"header":"h","steps":[],"batchConfig":{"batchTimeout":0}}}]}}] => $[0].from.steps[0].resequence.batchConfig.batchTimeout BadValue
[{"from":{"uri":"stream:in","steps":[{"resequence":{"header":"h","steps":[],"batchConfig":{"batchTimeout":1000000001}}}]}}] => $[0].from.steps[0].resequence.batchConfig.batchTimeout BadValue
[{"from":{"uri":"stream:in","steps":[{"doTry":{"steps":[],"doCatch":[{"exception":"E","steps":[],"onWhen":{"ref":"full"}}]}}]}}] => $[0].from.steps[0].doTry.doCatch[0].onWhen.ref NotRegistered full
[{"from":{"uri":"stream:in","steps":[{"resequence":{"header":"h","steps":[],"batchConfig":{"batchSize":"0"}}}]}}] => $[0].from.steps[0].resequence.batchConfig.batchSize BadValue
[{"from":{"uri":"stream:in","steps":[{"resequence":{"header":"h","steps":[],"batchConfig":{"batchTimeout":-1}}}]}}] => $[0].from.steps[0].resequence.batchConfig.batchTimeout BadValue
[{"from":{"uri":"stream:in","steps":[{"resequence":{"header":"h","steps":[],"batchConfig":{"batchTimeout":"1000000001"}}}]}}] => $[0].from.steps[0].resequence.batchConfig.batchTimeout BadValue
[{"from":{"uri":"stream:in","steps":[{"resequence":{"header":"h","steps":[],"batchConfig":{"batchTimeout":"1s"}}}]}}] => $[0].from.steps[0].resequence.batchConfig.batchTimeout BadValue"###;

/// Templates and predicates that cannot be read.
pub const BAD_SIMPLE: &str =
    r#"[{"from":{"uri":"stream:in","steps":[{"setBody":{"simple":"${"}}]}}] => $[0].from.steps[0].setBody.simple BadSimple 0
[{"from":{"uri":"stream:in","steps":[{"setBody":{"simple":"a${body"}}]}}] => $[0].from.steps[0].setBody.simple BadSimple 1
[{"from":{"uri":"stream:in","steps":[{"setBody":{"simple":"é${body"}}]}}] => $[0].from.steps[0].setBody.simple BadSimple 2
[{"from":{"uri":"stream:in","steps":[{"setBody":{"simple":"${}"}}]}}] => $[0].from.steps[0].setBody.simple UnknownFunction 0
[{"from":{"uri":"stream:in","steps":[{"setBody":{"simple":"a${boddy}"}}]}}] => $[0].from.steps[0].setBody.simple UnknownFunction 1
[{"from":{"uri":"stream:in","steps":[{"setBody":{"simple":"${body}${Body}"}}]}}] => $[0].from.steps[0].setBody.simple UnknownFunction 7
[{"from":{"uri":"stream:in","steps":[{"setBody":{"simple":"${header.}"}}]}}] => $[0].from.steps[0].setBody.simple UnknownFunction 0
[{"from":{"uri":"stream:in","steps":[{"setBody":{"simple":"${header.a b}"}}]}}] => $[0].from.steps[0].setBody.simple UnknownFunction 0
[{"from":{"uri":"stream:in","steps":[{"setBody":{"simple":"${headers}"}}]}}] => $[0].from.steps[0].setBody.simple UnknownFunction 0
[{"from":{"uri":"stream:in","steps":[{"setBody":{"simple":"$${bodies}"}}]}}] => $[0].from.steps[0].setBody.simple UnknownFunction 1
[{"from":{"uri":"stream:in","steps":[{"setBody":{"simple":"${ body}"}}]}}] => $[0].from.steps[0].setBody.simple UnknownFunction 0
[{"from":{"uri":"stream:in","steps":[{"setBody":{"simple":"${exception}"}}]}}] => $[0].from.steps[0].setBody.simple UnknownFunction 0
[{"from":{"uri":"stream:in","steps":[{"setBody":{"simple":"${exchangeProperty.}"}}]}}] => $[0].from.steps[0].setBody.simple UnknownFunction 0
[{"from":{"uri":"stream:in","steps":[{"setBody":{"simple":"${header.nnnnnnnnnnnnnnnnnnnnnnnnnnnnnnnnnnnnnnnnnnnnnnnnnnnnnnnnnnnnnnnnn}"}}]}}] => $[0].from.steps[0].setBody.simple UnknownFunction 0
[{"from":{"uri":"stream:in","steps":[{"setBody":{"simple":"${body}}${"}}]}}] => $[0].from.steps[0].setBody.simple BadSimple 8
[{"from":{"uri":"stream:in","steps":[{"setBody":{"simple":"${${body}}"}}]}}] => $[0].from.steps[0].setBody.simple UnknownFunction 0
[{"from":{"uri":"stream:in","steps":[{"setBody":{"simple":{"expression":"${"}}}]}}] => $[0].from.steps[0].setBody.simple.expression BadSimple 0
[{"from":{"uri":"stream:in","steps":[{"setBody":{"simple":{"expression":"a${body"}}}]}}] => $[0].from.steps[0].setBody.simple.expression BadSimple 1
[{"from":{"uri":"stream:in","steps":[{"setBody":{"expression":{"simple":"é${body"}}}]}}] => $[0].from.steps[0].setBody.expression.simple BadSimple 2
[{"from":{"uri":"stream:in","steps":[{"setBody":{"expression":{"simple":"${}"}}}]}}] => $[0].from.steps[0].setBody.expression.simple UnknownFunction 0
[{"from":{"uri":"stream:in","steps":[{"setBody":{"expression":{"simple":{"expression":"a${boddy}"}}}}]}}] => $[0].from.steps[0].setBody.expression.simple.expression UnknownFunction 1
[{"from":{"uri":"stream:in","steps":[{"setBody":{"expression":{"simple":{"expression":"${body}${Body}"}}}}]}}] => $[0].from.steps[0].setBody.expression.simple.expression UnknownFunction 7
[{"from":{"uri":"stream:in","steps":[{"setHeader":{"name":"h","simple":"${header.}"}}]}}] => $[0].from.steps[0].setHeader.simple UnknownFunction 0
[{"from":{"uri":"stream:in","steps":[{"setHeader":{"name":"h","simple":"${header.a b}"}}]}}] => $[0].from.steps[0].setHeader.simple UnknownFunction 0
[{"from":{"uri":"stream:in","steps":[{"setProperty":{"name":"p","simple":"${headers}"}}]}}] => $[0].from.steps[0].setProperty.simple UnknownFunction 0
[{"from":{"uri":"stream:in","steps":[{"setProperty":{"name":"p","simple":"$${bodies}"}}]}}] => $[0].from.steps[0].setProperty.simple UnknownFunction 1
[{"from":{"uri":"stream:in","steps":[{"log":"${ body}"}]}}] => $[0].from.steps[0].log UnknownFunction 0
[{"from":{"uri":"stream:in","steps":[{"log":"${exception}"}]}}] => $[0].from.steps[0].log UnknownFunction 0
[{"from":{"uri":"stream:in","steps":[{"log":{"message":"${exchangeProperty.}"}}]}}] => $[0].from.steps[0].log.message UnknownFunction 0
[{"from":{"uri":"stream:in","steps":[{"log":{"message":"${header.nnnnnnnnnnnnnnnnnnnnnnnnnnnnnnnnnnnnnnnnnnnnnnnnnnnnnnnnnnnnnnnnn}"}}]}}] => $[0].from.steps[0].log.message UnknownFunction 0
[{"from":{"uri":"stream:in","steps":[{"throwException":{"exceptionType":"E","message":"${body}}${"}}]}}] => $[0].from.steps[0].throwException.message BadSimple 8
[{"from":{"uri":"stream:in","steps":[{"throwException":{"exceptionType":"E","message":"${${body}}"}}]}}] => $[0].from.steps[0].throwException.message UnknownFunction 0
[{"from":{"uri":"stream:in","steps":[{"recipientList":{"simple":"${"}}]}}] => $[0].from.steps[0].recipientList.simple BadSimple 0
[{"from":{"uri":"stream:in","steps":[{"recipientList":{"simple":"a${body"}}]}}] => $[0].from.steps[0].recipientList.simple BadSimple 1
[{"from":{"uri":"stream:in","steps":[{"aggregate":{"correlationExpression":{"simple":"é${body"},"completionSize":1,"steps":[]}}]}}] => $[0].from.steps[0].aggregate.correlationExpression.simple BadSimple 2
[{"from":{"uri":"stream:in","steps":[{"aggregate":{"correlationExpression":{"simple":"${}"},"completionSize":1,"steps":[]}}]}}] => $[0].from.steps[0].aggregate.correlationExpression.simple UnknownFunction 0
[{"from":{"uri":"stream:in","steps":[{"idempotentConsumer":{"simple":"a${boddy}","steps":[]}}]}}] => $[0].from.steps[0].idempotentConsumer.simple UnknownFunction 1
[{"from":{"uri":"stream:in","steps":[{"idempotentConsumer":{"simple":"${body}${Body}","steps":[]}}]}}] => $[0].from.steps[0].idempotentConsumer.simple UnknownFunction 7
[{"from":{"uri":"stream:in","steps":[{"filter":{"simple":"","steps":[]}}]}}] => $[0].from.steps[0].filter.simple BadSimple 0
[{"from":{"uri":"stream:in","steps":[{"filter":{"simple":"  ","steps":[]}}]}}] => $[0].from.steps[0].filter.simple BadSimple 2
[{"from":{"uri":"stream:in","steps":[{"filter":{"simple":"x","steps":[]}}]}}] => $[0].from.steps[0].filter.simple BadSimple 0
[{"from":{"uri":"stream:in","steps":[{"filter":{"simple":"${body} =","steps":[]}}]}}] => $[0].from.steps[0].filter.simple BadSimple 8
[{"from":{"uri":"stream:in","steps":[{"filter":{"simple":"${body} == 'x","steps":[]}}]}}] => $[0].from.steps[0].filter.simple BadSimple 11
[{"from":{"uri":"stream:in","steps":[{"filter":{"simple":"${boddy} == 'x'","steps":[]}}]}}] => $[0].from.steps[0].filter.simple UnknownFunction 0
[{"from":{"uri":"stream:in","steps":[{"filter":{"simple":"${body} == ","steps":[]}}]}}] => $[0].from.steps[0].filter.simple BadSimple 11
[{"from":{"uri":"stream:in","steps":[{"filter":{"simple":"${body} ==","steps":[]}}]}}] => $[0].from.steps[0].filter.simple BadSimple 10
[{"from":{"uri":"stream:in","steps":[{"filter":{"simple":"${body} =='x'","steps":[]}}]}}] => $[0].from.steps[0].filter.simple BadSimple 10
[{"from":{"uri":"stream:in","steps":[{"filter":{"simple":"5x","steps":[]}}]}}] => $[0].from.steps[0].filter.simple BadSimple 1
[{"from":{"uri":"stream:in","steps":[{"filter":{"simple":"truex","steps":[]}}]}}] => $[0].from.steps[0].filter.simple BadSimple 4
[{"from":{"uri":"stream:in","steps":[{"filter":{"simple":"'x' 'y'","steps":[]}}]}}] => $[0].from.steps[0].filter.simple BadSimple 4
[{"from":{"uri":"stream:in","steps":[{"filter":{"simple":"${body} && ","steps":[]}}]}}] => $[0].from.steps[0].filter.simple BadSimple 11
[{"from":{"uri":"stream:in","steps":[{"filter":{"simple":"${body} &&${body}","steps":[]}}]}}] => $[0].from.steps[0].filter.simple BadSimple 10
[{"from":{"uri":"stream:in","steps":[{"filter":{"simple":"|| true","steps":[]}}]}}] => $[0].from.steps[0].filter.simple BadSimple 0
[{"from":{"uri":"stream:in","steps":[{"filter":{"simple":"true & false","steps":[]}}]}}] => $[0].from.steps[0].filter.simple BadSimple 5
[{"from":{"uri":"stream:in","steps":[{"filter":{"simple":"${body} == '${bod}'","steps":[]}}]}}] => $[0].from.steps[0].filter.simple UnknownFunction 12
[{"from":{"uri":"stream:in","steps":[{"filter":{"simple":"'a${body'","steps":[]}}]}}] => $[0].from.steps[0].filter.simple BadSimple 2
[{"from":{"uri":"stream:in","steps":[{"filter":{"simple":"${body} regex ${body}","steps":[]}}]}}] => $[0].from.steps[0].filter.simple BadSimple 14
[{"from":{"uri":"stream:in","steps":[{"filter":{"simple":"${body} regex 5","steps":[]}}]}}] => $[0].from.steps[0].filter.simple BadSimple 14
[{"from":{"uri":"stream:in","steps":[{"filter":{"simple":"${body} regex '${body}'","steps":[]}}]}}] => $[0].from.steps[0].filter.simple BadSimple 14
[{"from":{"uri":"stream:in","steps":[{"filter":{"simple":"${body} regex '('","steps":[]}}]}}] => $[0].from.steps[0].filter.simple BadPattern 14
[{"from":{"uri":"stream:in","steps":[{"filter":{"simple":"${body} !regex \"[\"","steps":[]}}]}}] => $[0].from.steps[0].filter.simple BadPattern 15
[{"from":{"uri":"stream:in","steps":[{"filter":{"simple":"true && ${body} regex '*'","steps":[]}}]}}] => $[0].from.steps[0].filter.simple BadPattern 22
[{"from":{"uri":"stream:in","steps":[{"filter":{"simple":"${body","steps":[]}}]}}] => $[0].from.steps[0].filter.simple BadSimple 0
[{"from":{"uri":"stream:in","steps":[{"filter":{"simple":"-","steps":[]}}]}}] => $[0].from.steps[0].filter.simple BadSimple 0
[{"from":{"uri":"stream:in","steps":[{"filter":{"simple":"'é' == ${x}","steps":[]}}]}}] => $[0].from.steps[0].filter.simple UnknownFunction 8
[{"from":{"uri":"stream:in","steps":[{"filter":{"simple":"true == false == true","steps":[]}}]}}] => $[0].from.steps[0].filter.simple BadSimple 14
[{"from":{"uri":"stream:in","steps":[{"filter":{"simple":"${body} containsx","steps":[]}}]}}] => $[0].from.steps[0].filter.simple BadSimple 16
[{"from":{"uri":"stream:in","steps":[{"filter":{"simple":"${body} inside 'x'","steps":[]}}]}}] => $[0].from.steps[0].filter.simple BadSimple 10
[{"from":{"uri":"stream:in","steps":[{"filter":{"simple":"${body} <=5","steps":[]}}]}}] => $[0].from.steps[0].filter.simple BadSimple 10
[{"from":{"uri":"stream:in","steps":[{"filter":{"simple":"${body} < = 5","steps":[]}}]}}] => $[0].from.steps[0].filter.simple BadSimple 10
[{"from":{"uri":"stream:in","steps":[{"filter":{"simple":"${body} ! in 'a'","steps":[]}}]}}] => $[0].from.steps[0].filter.simple BadSimple 8
[{"from":{"uri":"stream:in","steps":[{"filter":{"simple":"${body} in","steps":[]}}]}}] => $[0].from.steps[0].filter.simple BadSimple 10
[{"from":{"uri":"stream:in","steps":[{"filter":{"simple":"true&&false","steps":[]}}]}}] => $[0].from.steps[0].filter.simple BadSimple 4
[{"from":{"uri":"stream:in","steps":[{"filter":{"simple":"--5","steps":[]}}]}}] => $[0].from.steps[0].filter.simple BadSimple 0
[{"from":{"uri":"stream:in","steps":[{"filter":{"simple":"- 5","steps":[]}}]}}] => $[0].from.steps[0].filter.simple BadSimple 0
[{"from":{"uri":"stream:in","steps":[{"filter":{"simple":"5 5","steps":[]}}]}}] => $[0].from.steps[0].filter.simple BadSimple 2
[{"from":{"uri":"stream:in","steps":[{"filter":{"simple":"''x","steps":[]}}]}}] => $[0].from.steps[0].filter.simple BadSimple 2
[{"from":{"uri":"stream:in","steps":[{"filter":{"simple":"nullx","steps":[]}}]}}] => $[0].from.steps[0].filter.simple BadSimple 4
[{"from":{"uri":"stream:in","steps":[{"filter":{"simple":"'a' == null x","steps":[]}}]}}] => $[0].from.steps[0].filter.simple BadSimple 12
[{"from":{"uri":"stream:in","steps":[{"filter":{"simple":"${header.a}${body}","steps":[]}}]}}] => $[0].from.steps[0].filter.simple BadSimple 11
[{"from":{"uri":"stream:in","steps":[{"filter":{"simple":"${body} starts  with 'x'","steps":[]}}]}}] => $[0].from.steps[0].filter.simple BadSimple 8
[{"from":{"uri":"stream:in","steps":[{"filter":{"simple":"${body} startsWith'x'","steps":[]}}]}}] => $[0].from.steps[0].filter.simple BadSimple 18
[{"from":{"uri":"stream:in","steps":[{"filter":{"simple":"'${body' == '}'","steps":[]}}]}}] => $[0].from.steps[0].filter.simple BadSimple 1
[{"from":{"uri":"stream:in","steps":[{"filter":{"simple":"${body' == '}","steps":[]}}]}}] => $[0].from.steps[0].filter.simple UnknownFunction 0
[{"from":{"uri":"stream:in","steps":[{"filter":{"simple":"true ||","steps":[]}}]}}] => $[0].from.steps[0].filter.simple BadSimple 7
[{"from":{"uri":"stream:in","steps":[{"filter":{"simple":"true || ","steps":[]}}]}}] => $[0].from.steps[0].filter.simple BadSimple 8
[{"from":{"uri":"stream:in","steps":[{"filter":{"simple":"true && && true","steps":[]}}]}}] => $[0].from.steps[0].filter.simple BadSimple 8
[{"from":{"uri":"stream:in","steps":[{"filter":{"simple":"(true)","steps":[]}}]}}] => $[0].from.steps[0].filter.simple BadSimple 0
[{"from":{"uri":"stream:in","steps":[{"filter":{"simple":"!${body}","steps":[]}}]}}] => $[0].from.steps[0].filter.simple BadSimple 0
[{"from":{"uri":"stream:in","steps":[{"filter":{"simple":"${body} =~","steps":[]}}]}}] => $[0].from.steps[0].filter.simple BadSimple 10
[{"from":{"uri":"stream:in","steps":[{"filter":{"simple":"${body} === 5","steps":[]}}]}}] => $[0].from.steps[0].filter.simple BadSimple 10
[{"from":{"uri":"stream:in","steps":[{"filter":{"simple":"True","steps":[]}}]}}] => $[0].from.steps[0].filter.simple BadSimple 0
[{"from":{"uri":"stream:in","steps":[{"filter":{"simple":"1.5 == 1.5","steps":[]}}]}}] => $[0].from.steps[0].filter.simple BadSimple 1
[{"from":{"uri":"stream:in","steps":[{"filter":{"simple":"+1 == 1","steps":[]}}]}}] => $[0].from.steps[0].filter.simple BadSimple 0
[{"from":{"uri":"stream:in","steps":[{"filter":{"simple":"${body}\t== 'x'","steps":[]}}]}}] => $[0].from.steps[0].filter.simple BadSimple 7
[{"from":{"uri":"stream:in","steps":[{"filter":{"simple":"${body} regex 'a)(?:b'","steps":[]}}]}}] => $[0].from.steps[0].filter.simple BadPattern 14
[{"from":{"uri":"stream:in","steps":[{"filter":{"simple":"${body} regex '(?x)a #'","steps":[]}}]}}] => $[0].from.steps[0].filter.simple BadPattern 14
[{"from":{"uri":"stream:in","steps":[{"filter":{"simple":"${body} regex '[z-a]'","steps":[]}}]}}] => $[0].from.steps[0].filter.simple BadPattern 14
[{"from":{"uri":"stream:in","steps":[{"filter":{"simple":"${body} regex '\\'","steps":[]}}]}}] => $[0].from.steps[0].filter.simple BadPattern 14
[{"from":{"uri":"stream:in","steps":[{"filter":{"simple":"${body} regex '(?P<n'","steps":[]}}]}}] => $[0].from.steps[0].filter.simple BadPattern 14
[{"from":{"uri":"stream:in","steps":[{"filter":{"simple":"${body} regex null","steps":[]}}]}}] => $[0].from.steps[0].filter.simple BadSimple 14
[{"from":{"uri":"stream:in","steps":[{"filter":{"simple":"${body} regex '$' == 'x'","steps":[]}}]}}] => $[0].from.steps[0].filter.simple BadSimple 18
[{"from":{"uri":"stream:in","steps":[{"filter":{"simple":{"expression":"${body} ="},"steps":[]}}]}}] => $[0].from.steps[0].filter.simple.expression BadSimple 8
[{"from":{"uri":"stream:in","steps":[{"filter":{"simple":{"expression":"${boddy} == 'x'"},"steps":[]}}]}}] => $[0].from.steps[0].filter.simple.expression UnknownFunction 0
[{"from":{"uri":"stream:in","steps":[{"filter":{"simple":{"expression":"${body} regex '('"},"steps":[]}}]}}] => $[0].from.steps[0].filter.simple.expression BadPattern 14
[{"from":{"uri":"stream:in","steps":[{"filter":{"expression":{"simple":"${body} == 'x"},"steps":[]}}]}}] => $[0].from.steps[0].filter.expression.simple BadSimple 11
[{"from":{"uri":"stream:in","steps":[{"filter":{"expression":{"simple":"${body} == "},"steps":[]}}]}}] => $[0].from.steps[0].filter.expression.simple BadSimple 11
[{"from":{"uri":"stream:in","steps":[{"filter":{"expression":{"simple":"${body} !regex \"[\""},"steps":[]}}]}}] => $[0].from.steps[0].filter.expression.simple BadPattern 15
[{"from":{"uri":"stream:in","steps":[{"choice":{"when":[{"simple":"${boddy} == 'x'","steps":[]}]}}]}}] => $[0].from.steps[0].choice.when[0].simple UnknownFunction 0
[{"from":{"uri":"stream:in","steps":[{"choice":{"when":[{"simple":"${body} ==","steps":[]}]}}]}}] => $[0].from.steps[0].choice.when[0].simple BadSimple 10
[{"from":{"uri":"stream:in","steps":[{"choice":{"when":[{"simple":"true && ${body} regex '*'","steps":[]}]}}]}}] => $[0].from.steps[0].choice.when[0].simple BadPattern 22
[{"from":{"uri":"stream:in","steps":[{"aggregate":{"correlationExpression":{"header":"h"},"completionPredicate":{"simple":"${body} == "},"steps":[]}}]}}] => $[0].from.steps[0].aggregate.completionPredicate.simple BadSimple 11
[{"from":{"uri":"stream:in","steps":[{"aggregate":{"correlationExpression":{"header":"h"},"completionPredicate":{"simple":"${body} =='x'"},"steps":[]}}]}}] => $[0].from.steps[0].aggregate.completionPredicate.simple BadSimple 10
[{"from":{"uri":"stream:in","steps":[{"aggregate":{"correlationExpression":{"header":"h"},"completionPredicate":{"simple":"${body"},"steps":[]}}]}}] => $[0].from.steps[0].aggregate.completionPredicate.simple BadSimple 0
[{"from":{"uri":"stream:in","steps":[{"aggregate":{"correlationExpression":{"header":"h"},"completionPredicate":{"simple":{"expression":"${body} =="}},"steps":[]}}]}}] => $[0].from.steps[0].aggregate.completionPredicate.simple.expression BadSimple 10
[{"from":{"uri":"stream:in","steps":[{"aggregate":{"correlationExpression":{"header":"h"},"completionPredicate":{"simple":{"expression":"5x"}},"steps":[]}}]}}] => $[0].from.steps[0].aggregate.completionPredicate.simple.expression BadSimple 1
[{"from":{"uri":"stream:in","steps":[{"aggregate":{"correlationExpression":{"header":"h"},"completionPredicate":{"simple":{"expression":"-"}},"steps":[]}}]}}] => $[0].from.steps[0].aggregate.completionPredicate.simple.expression BadSimple 0
[{"from":{"uri":"stream:in","steps":[{"resequence":{"simple":"a${body","steps":[]}}]}}] => $[0].from.steps[0].resequence.simple BadSimple 1
[{"from":{"uri":"stream:in","steps":[{"resequence":{"simple":"${boddy}","steps":[]}}]}}] => $[0].from.steps[0].resequence.simple UnknownFunction 0
[{"from":{"uri":"stream:in","steps":[{"resequence":{"simple":{"expression":"${header.}"},"steps":[]}}]}}] => $[0].from.steps[0].resequence.simple.expression UnknownFunction 0
[{"from":{"uri":"stream:in","steps":[{"doTry":{"steps":[],"doCatch":[{"exception":"E","steps":[],"onWhen":{"simple":"${body} =="}}]}}]}}] => $[0].from.steps[0].doTry.doCatch[0].onWhen.simple BadSimple 10
[{"from":{"uri":"stream:in","steps":[{"doTry":{"steps":[],"doCatch":[{"exception":"E","steps":[],"onWhen":{"simple":{"expression":"${body} regex '('"}}}]}}]}}] => $[0].from.steps[0].doTry.doCatch[0].onWhen.simple.expression BadPattern 14
[{"from":{"uri":"stream:in","steps":[{"filter":{"simple":"${body} regex '(' x","steps":[]}}]}}] => $[0].from.steps[0].filter.simple BadPattern 14
[{"from":{"uri":"stream:in","steps":[{"filter":{"simple":"${body} regex '(' && ${boddy} == 'x'","steps":[]}}]}}] => $[0].from.steps[0].filter.simple BadPattern 14
[{"from":{"uri":"stream:in","steps":[{"filter":{"simple":"${boddy} == 'x' && ${body} regex '('","steps":[]}}]}}] => $[0].from.steps[0].filter.simple UnknownFunction 0
[{"from":{"uri":"stream:in","steps":[{"filter":{"simple":"${body} regex '('","steps":[{"shout":1}]}},{"shout":1}]}}] => $[0].from.steps[0].filter.simple BadPattern 14
[{"from":{"uri":"stream:in","steps":[{"filter":{"simple":"${body} regex '('","steps":[1],"other":1}}]}}] => $[0].from.steps[0].filter UnknownKey other"#;

/// Files of which the first pattern is refused for its size.
pub const FIRST_PATTERN_REFUSED: &str =
    r#"[{"from":{"uri":"stream:in","steps":[{"filter":{"simple":"${body} regex 'a'","steps":[]}}]}}] => $[0].from.steps[0].filter.simple PatternTooLarge 14
[{"from":{"uri":"stream:in","steps":[{"filter":{"simple":"true || ${body} !regex \"a\"","steps":[]}}]}}] => $[0].from.steps[0].filter.simple PatternTooLarge 23
[{"from":{"uri":"stream:in","steps":[{"filter":{"simple":"${body} regex '('","steps":[]}}]}}] => $[0].from.steps[0].filter.simple PatternTooLarge 14
[{"from":{"uri":"stream:in","steps":[{"filter":{"simple":{"expression":"${body} regex 'a'"},"steps":[]}}]}}] => $[0].from.steps[0].filter.simple.expression PatternTooLarge 14
[{"from":{"uri":"stream:in","steps":[{"filter":{"expression":{"simple":"${body} regex 'a'"},"steps":[]}}]}}] => $[0].from.steps[0].filter.expression.simple PatternTooLarge 14
[{"from":{"uri":"stream:in","steps":[{"choice":{"when":[{"ref":"empty","steps":[]},{"simple":"${body} regex 'a'","steps":[]}]}}]}}] => $[0].from.steps[0].choice.when[1].simple PatternTooLarge 14
[{"from":{"uri":"stream:in","steps":[{"aggregate":{"correlationExpression":{"header":"h"},"completionPredicate":{"simple":"${body} regex 'a'"},"steps":[]}}]}}] => $[0].from.steps[0].aggregate.completionPredicate.simple PatternTooLarge 14
[{"from":{"uri":"stream:in","steps":[{"to":""},{"filter":{"simple":"${body} regex 'a'","steps":[]}}]}}] => $[0].from.steps[0].to BadUri 0
[{"from":{"uri":"stream:in","steps":[{"filter":{"simple":"${body} regex 'a'","steps":[]}},{"to":""}]}}] => $[0].from.steps[0].filter.simple PatternTooLarge 14
[{"from":{"uri":"stream:in","steps":[{"filter":{"simple":"${body} regex 'a'","steps":[{"shout":1}]}}]}}] => $[0].from.steps[0].filter.simple PatternTooLarge 14
[{"from":{"uri":"stream:in","steps":[{"filter":{"simple":"${body} regex 'a'"}}]}}] => $[0].from.steps[0].filter MissingKey steps
[{"from":{"uri":"stream:in","steps":[{"filter":{"simple":"${body} regex 'a' x","steps":[]}}]}}] => $[0].from.steps[0].filter.simple PatternTooLarge 14
[{"from":{"uri":"stream:in","steps":[{"filter":{"simple":"${bodies} == 'x' && ${body} regex 'a'","steps":[]}}]}}] => $[0].from.steps[0].filter.simple UnknownFunction 0
[{"from":{"uri":"stream:in","steps":[{"filter":{"simple":"${body} regex 'a","steps":[]}}]}}] => $[0].from.steps[0].filter.simple BadSimple 14
[{"from":{"uri":"stream:in","steps":[{"filter":{"simple":"${body} regex '${body}'","steps":[]}}]}}] => $[0].from.steps[0].filter.simple BadSimple 14
[{"from":{"uri":"log:a","steps":[{"filter":{"simple":"${body} regex 'a'","steps":[]}}]}}] => $[0].from.steps[0].filter.simple PatternTooLarge 14
[{"from":{"uri":"direct:a","steps":[{"filter":{"simple":"${body} regex 'a'","steps":[]}}]}},{"from":{"uri":"direct:a"}}] => $[0].from.steps[0].filter.simple PatternTooLarge 14
[{"from":{"uri":"direct:a","steps":[{"filter":{"simple":"${body} regex 'a'","steps":[]}}]}},{"rout":1}] => $[0].from.steps[0].filter.simple PatternTooLarge 14
[{"rout":1},{"from":{"uri":"direct:a","steps":[{"filter":{"simple":"${body} regex 'a'","steps":[]}}]}}] => $[0] UnknownKey rout
[{"route":{"from":{"steps":[{"filter":{"simple":"${body} == 'regex'","steps":[]}}],"uri":"stream:in"},"id":"r"}}] => [{"route":{"from":{"steps":[{"filter":{"simple":"${body} == 'regex'","steps":[]}}],"uri":"stream:in"},"id":"r"}}]
[{"from":{"uri":"stream:in","steps":[{"doTry":{"steps":[],"doCatch":[{"exception":"E","steps":[],"onWhen":{"simple":"${body} regex 'a'"}}]}}]}}] => $[0].from.steps[0].doTry.doCatch[0].onWhen.simple PatternTooLarge 14"#;

/// Files of which the second pattern is refused for its size.
pub const SECOND_PATTERN_REFUSED: &str =
    r#"[{"route":{"from":{"steps":[{"filter":{"simple":"${body} regex 'a'","steps":[]}}],"uri":"stream:in"},"id":"r"}}] => [{"route":{"from":{"steps":[{"filter":{"simple":"${body} regex 'a'","steps":[]}}],"uri":"stream:in"},"id":"r"}}]
[{"from":{"uri":"stream:in","steps":[{"filter":{"simple":"${body} regex 'a'","steps":[]}},{"filter":{"simple":"${body} regex 'a'","steps":[]}}]}}] => $[0].from.steps[1].filter.simple PatternTooLarge 14
[{"from":{"uri":"stream:in","steps":[{"filter":{"simple":"${body} regex 'a'","steps":[{"filter":{"simple":"${body} regex 'a'","steps":[]}}]}},{"filter":{"simple":"${body} regex 'a'","steps":[]}}]}}] => $[0].from.steps[0].filter.steps[0].filter.simple PatternTooLarge 14
[{"from":{"uri":"stream:in","steps":[{"filter":{"simple":"${body} regex 'a' && ${body} regex 'a'","steps":[]}}]}}] => $[0].from.steps[0].filter.simple PatternTooLarge 35
[{"from":{"uri":"stream:in","steps":[{"filter":{"simple":"${body} regex '('","steps":[]}},{"filter":{"simple":"${body} regex 'a'","steps":[]}}]}}] => $[0].from.steps[0].filter.simple BadPattern 14
[{"from":{"uri":"stream:in","steps":[{"choice":{"when":[{"simple":"${body} regex 'a'","steps":[]}],"otherwise":{"steps":[{"filter":{"simple":"${body} regex 'a'","steps":[]}}]}}}]}}] => $[0].from.steps[0].choice.when[0].simple PatternTooLarge 14
[{"onException":{"exception":"E","steps":[{"filter":{"simple":"${body} regex 'a'","steps":[]}}]}},{"from":{"uri":"direct:a","steps":[{"filter":{"simple":"${body} regex 'a'","steps":[]}}]}}] => $[1].from.steps[0].filter.simple PatternTooLarge 14
[{"from":{"uri":"stream:in","steps":[{"doTry":{"steps":[{"filter":{"simple":"${body} regex 'a'","steps":[]}}],"doCatch":[{"exception":"E","onWhen":{"simple":"${body} regex 'b'"},"steps":[]}]}}]}}] => $[0].from.steps[0].doTry.steps[0].filter.simple PatternTooLarge 14"#;
